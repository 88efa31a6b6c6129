// A lent list whose first n places are to hold one value.
#![tactic(auto)]

ghost use Rattle.std.specs.Prelude.{◌≡◌, ◌≤◌, length};
ghost use Rattle.lists.specs.Filled.{filled_to};

// `d[..n].fill(x)` asks of T that its clone can't fail, which a bound can't say: so the places are written one by one.
pub fn fill<T: Copy>(d: &mut [T], x: T, n: usize)
    requires { n ≤ length d.old }
    ensures { d.new ≡ filled_to x d.old n }
{
    for place in &mut d[..n] {
        *place = x;
    }
}
