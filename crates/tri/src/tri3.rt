// tri3.rs: the closest point of a triangle. The Rust's seven exits, in its order, stand in four functions.
// Tests are joined by & and not by &&: none has an effect, so their values are the same.
ghost use Rattle.std.specs.Prelude.{◌≡◌};
ghost use Rattle.tri.specs.Tri3 as Spec;

// Closest point of the triangle t to obs.
#[tactic(auto, unfolding(crate::specs::Tri3::closest_point))]
pub fn closest_point(obs: [f64; 3], t: [[f64; 3]; 3]) -> [f64; 3]
    ensures { result ≡ Spec.closest_point obs t }
{
    let ab = math::sub3(t[1], t[0]);
    let ac = math::sub3(t[2], t[0]);
    let ap = math::sub3(obs, t[0]);
    let d1 = math::dot3(ab, ap);
    let d2 = math::dot3(ac, ap);
    if (d1 <= 0.0) & (d2 <= 0.0) {
        return t[0];
    }
    exits_from_second(obs, t, ab, ac, d1, d2)
}

// Corner 1, or the edge from corner 0 to corner 1.
#[tactic(auto, unfolding(crate::specs::Tri3::exits_from_second))]
fn exits_from_second(
    obs: [f64; 3],
    t: [[f64; 3]; 3],
    ab: [f64; 3],
    ac: [f64; 3],
    d1: f64,
    d2: f64,
) -> [f64; 3]
    ensures { result ≡ Spec.exits_from_second obs t ab ac d1 d2 }
{
    let bp = math::sub3(obs, t[1]);
    let d3 = math::dot3(ab, bp);
    let d4 = math::dot3(ac, bp);
    if (d3 >= 0.0) & (d4 <= d3) {
        return t[1];
    }
    let vc = ieee754::mul_add(d1, d4, (0.0 - d3) * d2);
    if (vc <= 0.0) & (d1 >= 0.0) & (d3 <= 0.0) {
        return math::add_scaled3(t[0], ab, d1 / (d1 - d3));
    }
    exits_from_fourth(obs, t, ab, ac, d1, d2, d3, d4, vc)
}

// Corner 2, or the edge from corner 0 to corner 2.
#[tactic(auto, unfolding(crate::specs::Tri3::exits_from_fourth))]
fn exits_from_fourth(
    obs: [f64; 3],
    t: [[f64; 3]; 3],
    ab: [f64; 3],
    ac: [f64; 3],
    d1: f64,
    d2: f64,
    d3: f64,
    d4: f64,
    vc: f64,
) -> [f64; 3]
    ensures { result ≡ Spec.exits_from_fourth obs t ab ac d1 d2 d3 d4 vc }
{
    let cp = math::sub3(obs, t[2]);
    let d5 = math::dot3(ab, cp);
    let d6 = math::dot3(ac, cp);
    if (d6 >= 0.0) & (d5 <= d6) {
        return t[2];
    }
    let vb = ieee754::mul_add(d5, d2, (0.0 - d1) * d6);
    if (vb <= 0.0) & (d2 >= 0.0) & (d6 <= 0.0) {
        return math::add_scaled3(t[0], ac, d2 / (d2 - d6));
    }
    let va = ieee754::mul_add(d3, d6, (0.0 - d5) * d4);
    exits_from_sixth(t, ab, ac, d4 - d3, d5 - d6, va, vb, vc)
}

// The edge from corner 1 to corner 2, or inside; d43 is d4 - d3, d56 is d5 - d6.
#[tactic(auto, unfolding(crate::specs::Tri3::exits_from_sixth))]
fn exits_from_sixth(
    t: [[f64; 3]; 3],
    ab: [f64; 3],
    ac: [f64; 3],
    d43: f64,
    d56: f64,
    va: f64,
    vb: f64,
    vc: f64,
) -> [f64; 3]
    ensures { result ≡ Spec.exits_from_sixth t ab ac d43 d56 va vb vc }
{
    if (va <= 0.0) & (d43 >= 0.0) & (d56 >= 0.0) {
        let bc = math::sub3(t[2], t[1]);
        return math::add_scaled3(t[1], bc, d43 / (d43 + d56));
    }
    let denom_inv = 1.0 / (va + vb + vc);
    let v = vb * denom_inv;
    let w = vc * denom_inv;
    math::add_scaled3(math::add_scaled3(t[0], ab, v), ac, w)
}
