// quadrature.rs: Dunavant's rules on the reference triangle. A row is [weight, u, v]; the weights of a rule sum to about 1.
ghost use Rattle.std.specs.Prelude.{◌≡◌, ◌<◌};
ghost use Rattle.tri.specs.Quadrature as Spec;
ghost use Rattle.tri.specs.Groups as Groups;

#[derive(Clone, Copy, PartialEq, Eq)]
pub enum QuadratureKind {
    Dunavant1,
    Dunavant2,
    Dunavant3,
    Dunavant4,
    Dunavant5,
}

// The rule of document 01's number, 1 to 5.
#[tactic(auto, unfolding(crate::specs::Quadrature::quadrature_rule))]
pub fn quadrature_rule(number: u32) -> Option<QuadratureKind>
    ensures { result ≡ Spec.quadrature_rule number }
{
    match number {
        1 => Some(QuadratureKind::Dunavant1),
        2 => Some(QuadratureKind::Dunavant2),
        3 => Some(QuadratureKind::Dunavant3),
        4 => Some(QuadratureKind::Dunavant4),
        5 => Some(QuadratureKind::Dunavant5),
        _ => None,
    }
}

// The most points that a rule has.
pub const MAX_POINTS: usize = 7;

#[tactic(auto, unfolding(crate::specs::Quadrature::quadrature_points, crate::specs::Quadrature::dunavant4, crate::specs::Quadrature::dunavant5))]
pub fn quadrature_count(kind: QuadratureKind) -> usize
    ensures { result ≡ Spec.quadrature_count kind }
{
    match kind {
        QuadratureKind::Dunavant1 => 1,
        QuadratureKind::Dunavant2 => 3,
        QuadratureKind::Dunavant3 => 4,
        QuadratureKind::Dunavant4 => 6,
        QuadratureKind::Dunavant5 => 7,
    }
}

// A weight and two numbers, of which the three rows of a group are made: the second number belongs to the first corner, then to the
// second, then to the third. A row that stands alone is the last of a group whose numbers are one. This is a match and not a constant,
// which the compiler would lay out on the stack at each use.
#[tactic(auto, unfolding(crate::specs::Groups::groups, crate::specs::Quadrature::quadrature_points, crate::specs::Quadrature::dunavant4, crate::specs::Quadrature::dunavant5))]
fn group(index: usize) -> [f64; 3]
    requires { index < Groups.group_count }
    ensures { result ≡ Groups.group index }
{
    match index {
        0 => [1.0, 1.0 / 3.0, 1.0 / 3.0],
        1 => [1.0 / 3.0, 1.0 / 6.0, 2.0 / 3.0],
        2 => [-27.0 / 48.0, 1.0 / 3.0, 1.0 / 3.0],
        3 => [25.0 / 48.0, 0.2, 0.6],
        4 => [0.223381589678011, 0.445948490915965, 0.108103018168070],
        5 => [0.109951743655322, 0.091576213509771, 0.816847572980459],
        6 => [0.225000000000000, 0.333333333333333, 0.333333333333333],
        7 => [0.132394152788506, 0.470142064105115, 0.059715871789770],
        _ => [0.125939180544828, 0.101286507323456, 0.797426985353087],
    }
}

// The place of a rule's first row among the rows of all groups, three a group.
#[tactic(auto, unfolding(crate::specs::Groups::first_place))]
fn first_place(kind: QuadratureKind) -> usize
    ensures { result ≡ Groups.first_place kind }
{
    match kind {
        QuadratureKind::Dunavant1 => 2,
        QuadratureKind::Dunavant2 => 3,
        QuadratureKind::Dunavant3 => 8,
        QuadratureKind::Dunavant4 => 12,
        QuadratureKind::Dunavant5 => 20,
    }
}

// Row k of the rule's table.
#[tactic(auto, using(crate::proofs::Groups::in_groups, crate::proofs::Groups::row_placed), unfolding(crate::specs::Groups::turned, crate::specs::Groups::groups))]
pub fn quadrature_row(kind: QuadratureKind, k: usize) -> [f64; 3]
    requires { k < Spec.quadrature_count kind }
    ensures { result ≡ Spec.quadrature_row kind k }
{
    let place = first_place(kind) + k;
    let g = group(place / 3);
    match place % 3 {
        0 => [g[0], g[1], g[1]],
        1 => [g[0], g[2], g[1]],
        _ => g,
    }
}
