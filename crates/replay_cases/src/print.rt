// The table. What is written no contract can say; each answers how many differ.
ghost use Rattle.std.specs.Prelude.{◌≡◌, ◌+◌, ◌*◌, ◌<◌, ◌≤◌, length};
ghost use Rattle.replay_cases.specs.Tally as Spec;

use crate::tally::Tally;

// Each name has 18 bytes, and the one of kind k stands at its place.
fn line(names: &[u8], k: usize, cases: u64, differ: u64) -> u64
    requires { (k < 128) × (k * 18 + 18 ≤ length names.now) }
    ensures { result ≡ differ }
{
    if cases > 0 {
        io::write_all(1, &names[k * 18..k * 18 + 18]);
        io::print_decimal(1, cases);
        io::write_all(1, b" cases  ");
        io::print_decimal(1, differ);
        io::write_all(1, b" differ\n");
    }
    differ
}

// The lines of the kinds that have cases.
fn lines(names: &[u8], tally: &Tally) -> u64
    requires { 2304 ≤ length names.now }
    ensures { result ≡ Spec.total tally.now.differ 128 }
{
    let mut sum = 0u64;
    for k in 0..128 {
        sum = sum.wrapping_add(line(names, k, tally.cases[k], tally.differ[k]));
    }
    sum
}

// The same under the kinds' names.
fn named_lines(tally: &Tally) -> u64
    ensures { result ≡ Spec.total tally.now.differ 128 }
{
    lines(
        b"-                 fma               sqrt              ln                asinh             atan2             dot3              cross3            \
        norm3             closest_point     area              quality           record            potential         gradient          contact           \
        bisect            coupling          block             entry             mesh_test         quadrature        densities         basis_densities   \
        panel_density     matrix            energy2           energy1           flux              interaction       move              row_matrix        \
        row_map           read_file         density_program   display           -                 point_distance    segment_distance  coupling_regular  \
        block_energy      identical         map_point         normal            normalize3        add_scaled3       sub3              add3              \
        scale3            min               max               clamp             abs               square_add        box_distance      panel_distance    \
        longest_edge      is_far            write_file        save_shape        drop_shape        return_shape      -                 -                 \
        -                 -                 -                 -                 -                 -                 -                 -                 \
        -                 -                 -                 -                 -                 -                 -                 -                 \
        -                 -                 -                 -                 -                 -                 -                 -                 \
        -                 -                 -                 -                 -                 -                 -                 -                 \
        -                 -                 -                 -                 -                 -                 -                 -                 \
        -                 -                 -                 -                 -                 -                 -                 -                 \
        -                 -                 -                 -                 -                 -                 -                 -                 \
        -                 -                 -                 -                 -                 -                 -                 -                 ",
        tally,
    )
}

// For each kind how many cases there are and how many differ; the last line is the sum.
pub fn table(tally: &Tally) -> u64
    ensures { result ≡ Spec.total tally.now.differ 128 }
{
    let sum = named_lines(tally);
    io::print_decimal(1, sum);
    io::write_all(1, b" differ\n");
    sum
}
