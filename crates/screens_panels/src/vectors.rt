// Vectors of three numbers.
ghost use Rattle.std.specs.Prelude.{◌≡◌};
ghost use Rattle.math.specs.Math as Math;
ghost use Rattle.screens_panels.specs.Screens.{vector};

#[unsafe(no_mangle)]
pub extern "C" fn screens_dot3(a: &[f64; 3], b: &[f64; 3]) -> f64
    ensures { result ≡ Math.dot3 (vector a) (vector b) }
{
    math::dot3(*a, *b)
}

#[unsafe(no_mangle)]
pub extern "C" fn screens_norm3(a: &[f64; 3]) -> f64
    ensures { result ≡ Math.norm3 (vector a) }
{
    math::norm3(*a)
}

#[unsafe(no_mangle)]
pub extern "C" fn screens_cross3(a: &[f64; 3], b: &[f64; 3], out: &mut [f64; 3])
    ensures { out.new ≡ Math.cross3 (vector a) (vector b) }
{
    *out = math::cross3(*a, *b);
}

#[unsafe(no_mangle)]
pub extern "C" fn screens_sub3(a: &[f64; 3], b: &[f64; 3], out: &mut [f64; 3])
    ensures { out.new ≡ Math.sub3 (vector a) (vector b) }
{
    *out = math::sub3(*a, *b);
}

#[unsafe(no_mangle)]
pub extern "C" fn screens_add3(a: &[f64; 3], b: &[f64; 3], out: &mut [f64; 3])
    ensures { out.new ≡ Math.add3 (vector a) (vector b) }
{
    *out = math::add3(*a, *b);
}

#[unsafe(no_mangle)]
pub extern "C" fn screens_scale3(a: &[f64; 3], scale: f64, out: &mut [f64; 3])
    ensures { out.new ≡ Math.scale3 (vector a) scale }
{
    *out = math::scale3(*a, scale);
}

#[unsafe(no_mangle)]
pub extern "C" fn screens_add_scaled3(a: &[f64; 3], b: &[f64; 3], scale: f64, out: &mut [f64; 3])
    ensures { out.new ≡ Math.add_scaled3 (vector a) (vector b) scale }
{
    *out = math::add_scaled3(*a, *b, scale);
}

#[unsafe(no_mangle)]
pub extern "C" fn screens_normalize3(a: &[f64; 3], out: &mut [f64; 3])
    ensures { out.new ≡ Math.normalize3 (vector a) }
{
    *out = math::normalize3(*a);
}
