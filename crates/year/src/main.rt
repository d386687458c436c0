// The main job, run in the gate on the sample year with Lake.
#![tactic(auto)]

fn main(rt: HostRuntime) {
    let errors = rt.stderr();
    year_job::run(&rt, &errors);
}
