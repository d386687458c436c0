// The two instances, each by the name that a person reads: what the program knows of them beside their lanes.
use lanes::Lanes;

pub trait Instance: Lanes {
    const NAME: &'static str;
}

impl Instance for [u64; 25] {
    const NAME: &'static str = "Lake";
}

impl Instance for [u32; 25] {
    const NAME: &'static str = "River";
}
