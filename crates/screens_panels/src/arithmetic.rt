// IEEE 754 operations, and document 01's ln, asinh and atan2.
ghost use Rattle.std.specs.Prelude.{◌≡◌};
ghost use Rattle.ieee754.specs.Ieee754 as Spec;
ghost use Rattle.elementary.specs.Elementary as Elementary;

// a * b + c, rounded once.
#[unsafe(no_mangle)]
pub extern "C" fn screens_mul_add(a: f64, b: f64, c: f64) -> f64
    ensures { result ≡ Spec.fma a b c }
{
    ieee754::mul_add(a, b, c)
}

// a * a + c, rounded once.
#[unsafe(no_mangle)]
pub extern "C" fn screens_square_add(a: f64, c: f64) -> f64
    ensures { result ≡ Spec.fma a a c }
{
    ieee754::square_add(a, c)
}

#[unsafe(no_mangle)]
pub extern "C" fn screens_sqrt(x: f64) -> f64
    ensures { result ≡ Spec.sqrt x }
{
    ieee754::sqrt(x)
}

#[unsafe(no_mangle)]
pub extern "C" fn screens_min(a: f64, b: f64) -> f64
    ensures { result ≡ Spec.min a b }
{
    ieee754::min(a, b)
}

#[unsafe(no_mangle)]
pub extern "C" fn screens_max(a: f64, b: f64) -> f64
    ensures { result ≡ Spec.max a b }
{
    ieee754::max(a, b)
}

#[unsafe(no_mangle)]
pub extern "C" fn screens_clamp(x: f64, lo: f64, hi: f64) -> f64
    ensures { result ≡ Spec.clamp x lo hi }
{
    ieee754::clamp(x, lo, hi)
}

#[unsafe(no_mangle)]
pub extern "C" fn screens_abs(x: f64) -> f64
    ensures { result ≡ Spec.abs x }
{
    ieee754::abs(x)
}

#[unsafe(no_mangle)]
pub extern "C" fn screens_ln(x: f64) -> f64
    ensures { result ≡ Elementary.ln x }
{
    elementary::ln(x)
}

#[unsafe(no_mangle)]
pub extern "C" fn screens_asinh(x: f64) -> f64
    ensures { result ≡ Elementary.asinh x }
{
    elementary::asinh(x)
}

#[unsafe(no_mangle)]
pub extern "C" fn screens_atan2(y: f64, x: f64) -> f64
    ensures { result ≡ Elementary.atan2 y x }
{
    elementary::atan2(y, x)
}
