// Document 01's bench sheet, worked out and printed, and the three elementary functions against the host C library's values. What
// is printed is compared with the file stdout: its numbers are document 01's, and for the last three lines what oracle/libm_table.c
// finds for the same formulas.
#![tactic(auto)]

mod gaps;
mod lines;
mod sheet;
mod table;

use lines::{bits_line, number_line};

fn arithmetic() {
    // 1 + 2^-30 and 1 - 2^-30
    let above = 1.000000000931322574615478515625;
    let below = 0.999999999068677425384521484375;
    bits_line(
        b"fused (1 + 2^-30) x (1 - 2^-30) - 1   ",
        ieee754::mul_add(above, below, -1.0),
    );
    bits_line(
        b"sqrt(-0)                              ",
        ieee754::sqrt(-0.0),
    );
    bits_line(
        b"sqrt 2                                ",
        ieee754::sqrt(2.0),
    );
}

fn panels() {
    number_line(
        b"height 2e-14, refusal                 ",
        sheet::thin_refusal(2e-14) as u64,
    );
    number_line(
        b"height 1.9e-14, refusal               ",
        sheet::thin_refusal(1.9e-14) as u64,
    );
    number_line(
        b"NaN area, refusal                     ",
        sheet::thin_refusal(ieee754::not_a_number()) as u64,
    );
    number_line(
        b"raised by 5, far                      ",
        sheet::far_when_raised(5.0) as u64,
    );
    number_line(
        b"raised by 5.000000000000001, far      ",
        sheet::far_when_raised(5.000000000000001) as u64,
    );
}

fn halving() {
    let point = sheet::split_point();
    number_line(
        b"split between this corner and the next",
        sheet::split_edge() as u64,
    );
    bits_line(b"split point, x                        ", point[0]);
    bits_line(b"split point, y                        ", point[1]);
    bits_line(b"split point, z                        ", point[2]);
}

fn maps() {
    let flux = sheet::flux();
    bits_line(b"flux 17                               ", flux[0]);
    bits_line(b"flux 39                               ", flux[1]);
    bits_line(
        b"interaction energy 56                 ",
        sheet::interaction_energy(),
    );
    number_line(
        b"no sources, one output, refusal       ",
        sheet::no_sources() as u64,
    );
    bits_line(b"energy 12.5                           ", sheet::energy());
    number_line(
        b"display of 1/1024                     ",
        sheet::displayed(),
    );
}

fn elementary_functions() {
    number_line(
        b"ln, units in the last place, at most 2",
        gaps::worst(|a, _| elementary::ln(a), &table::LN),
    );
    number_line(
        b"asinh, the same                       ",
        gaps::worst(|a, _| elementary::asinh(a), &table::ASINH),
    );
    number_line(
        b"atan2, the same                       ",
        gaps::worst(elementary::atan2, &table::ATAN2),
    );
}

fn main() {
    arithmetic();
    panels();
    halving();
    maps();
    elementary_functions();
}
