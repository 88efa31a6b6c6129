// What the proved leaves answer on small inputs. Floats are printed as their patterns.
use alpha::Alpha;
use std::fmt;
use std::fmt::Write;
use telling::stdout::Stdout;

fn line(out: &mut Stdout, name: &str, w: u64) -> fmt::Result {
    writeln!(out, "{name:19}{w:016x}")
}

fn float_line(out: &mut Stdout, name: &str, x: f64) -> fmt::Result {
    line(out, name, wire::pattern_of(x))
}

fn flag_line(out: &mut Stdout, name: &str, b: bool) -> fmt::Result {
    line(out, name, u64::from(b))
}

fn helpers(out: &mut Stdout) -> fmt::Result {
    let nan = 0.0 / 0.0;
    float_line(out, "max(NaN, 1)", floats::max(nan, 1.0))?;
    float_line(out, "max(1, NaN)", floats::max(1.0, nan))?;
    float_line(out, "max(+0, -0)", floats::max(0.0, -0.0))?;
    float_line(out, "min(-0, +0)", floats::min(-0.0, 0.0))?;
    float_line(out, "abs(-0)", floats::abs(-0.0))
}

fn wholes(out: &mut Stdout) -> fmt::Result {
    line(out, "whole(0.5 * 5)", floats::whole_product(0.5, 5))?;
    line(out, "whole(1 * 512)", floats::whole_product(1.0, 512))?;
    float_line(out, "512 as a float", floats::whole_as_float(512))?;
    float_line(out, "NaN leaves as", 0.0 / 0.0)?;
    float_line(out, "a NaN read as", wire::float_of(0xfff0_0000_0000_0001))
}

fn weights(out: &mut Stdout) -> fmt::Result {
    let top = Alpha::from(2.0, 1.0);
    flag_line(out, "2 of 1 at upper", top.reached_upper())?;
    float_line(out, "2 of 1 clipped", top.clipped().value)?;
    let none = Alpha::from(-0.0, 1.0);
    flag_line(out, "-0 of 1 at lower", none.reached_lower())?;
    float_line(out, "curvature floor", Alpha::curvature_floor())?;
    float_line(out, "kernel limit", Alpha::kernel_limit())
}

pub fn told(out: &mut Stdout) -> fmt::Result {
    writeln!(out, "-- leaves")?;
    helpers(out)?;
    wholes(out)?;
    weights(out)
}
