// The steps of a round on 25 lanes, each said once for both widths of a lane: the width is the last argument. Each takes every lane once, into a local, and makes
// a new set of lanes: so it needs no proof file, and is fast. A turn is by an offset modulo the width, which is never 0 here.

macro_rules! theta {
    ($lanes:expr, $bits:literal) => {{
        let [a0, a1, a2, a3, a4, a5, a6, a7, a8, a9, a10, a11, a12, a13, a14, a15, a16, a17, a18, a19, a20, a21, a22, a23, a24] = $lanes;
        let c0 = a0 ^ a5 ^ a10 ^ a15 ^ a20;
        let c1 = a1 ^ a6 ^ a11 ^ a16 ^ a21;
        let c2 = a2 ^ a7 ^ a12 ^ a17 ^ a22;
        let c3 = a3 ^ a8 ^ a13 ^ a18 ^ a23;
        let c4 = a4 ^ a9 ^ a14 ^ a19 ^ a24;
        let d0 = c4 ^ c1.rotate_left(1 % $bits);
        let d1 = c0 ^ c2.rotate_left(1 % $bits);
        let d2 = c1 ^ c3.rotate_left(1 % $bits);
        let d3 = c2 ^ c4.rotate_left(1 % $bits);
        let d4 = c3 ^ c0.rotate_left(1 % $bits);
        [
            a0 ^ d0,
            a1 ^ d1,
            a2 ^ d2,
            a3 ^ d3,
            a4 ^ d4,
            a5 ^ d0,
            a6 ^ d1,
            a7 ^ d2,
            a8 ^ d3,
            a9 ^ d4,
            a10 ^ d0,
            a11 ^ d1,
            a12 ^ d2,
            a13 ^ d3,
            a14 ^ d4,
            a15 ^ d0,
            a16 ^ d1,
            a17 ^ d2,
            a18 ^ d3,
            a19 ^ d4,
            a20 ^ d0,
            a21 ^ d1,
            a22 ^ d2,
            a23 ^ d3,
            a24 ^ d4,
        ]
    }};
}

macro_rules! rho_pi {
    ($lanes:expr, $bits:literal) => {{
        let [a0, a1, a2, a3, a4, a5, a6, a7, a8, a9, a10, a11, a12, a13, a14, a15, a16, a17, a18, a19, a20, a21, a22, a23, a24] = $lanes;
        [
            a0,
            a6.rotate_left(44 % $bits),
            a12.rotate_left(43 % $bits),
            a18.rotate_left(21 % $bits),
            a24.rotate_left(14 % $bits),
            a3.rotate_left(28 % $bits),
            a9.rotate_left(20 % $bits),
            a10.rotate_left(3 % $bits),
            a16.rotate_left(45 % $bits),
            a22.rotate_left(61 % $bits),
            a1.rotate_left(1 % $bits),
            a7.rotate_left(6 % $bits),
            a13.rotate_left(25 % $bits),
            a19.rotate_left(8 % $bits),
            a20.rotate_left(18 % $bits),
            a4.rotate_left(27 % $bits),
            a5.rotate_left(36 % $bits),
            a11.rotate_left(10 % $bits),
            a17.rotate_left(15 % $bits),
            a23.rotate_left(56 % $bits),
            a2.rotate_left(62 % $bits),
            a8.rotate_left(55 % $bits),
            a14.rotate_left(39 % $bits),
            a15.rotate_left(41 % $bits),
            a21.rotate_left(2 % $bits),
        ]
    }};
}

macro_rules! chi {
    ($lanes:expr) => {{
        let [a0, a1, a2, a3, a4, a5, a6, a7, a8, a9, a10, a11, a12, a13, a14, a15, a16, a17, a18, a19, a20, a21, a22, a23, a24] = $lanes;
        [
            a0 ^ (!a1 & a2),
            a1 ^ (!a2 & a3),
            a2 ^ (!a3 & a4),
            a3 ^ (!a4 & a0),
            a4 ^ (!a0 & a1),
            a5 ^ (!a6 & a7),
            a6 ^ (!a7 & a8),
            a7 ^ (!a8 & a9),
            a8 ^ (!a9 & a5),
            a9 ^ (!a5 & a6),
            a10 ^ (!a11 & a12),
            a11 ^ (!a12 & a13),
            a12 ^ (!a13 & a14),
            a13 ^ (!a14 & a10),
            a14 ^ (!a10 & a11),
            a15 ^ (!a16 & a17),
            a16 ^ (!a17 & a18),
            a17 ^ (!a18 & a19),
            a18 ^ (!a19 & a15),
            a19 ^ (!a15 & a16),
            a20 ^ (!a21 & a22),
            a21 ^ (!a22 & a23),
            a22 ^ (!a23 & a24),
            a23 ^ (!a24 & a20),
            a24 ^ (!a20 & a21),
        ]
    }};
}

pub(crate) use chi;
pub(crate) use rho_pi;
pub(crate) use theta;
