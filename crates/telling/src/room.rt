// Lists to lend, with places for 513 samples, and the identity matrix.
ghost use Rattle.std.specs.Prelude.{◌≡◌, ◌≤◌, length};

// It says no more of its array than the length, so that no proof unfolds its zeros.
pub fn zeros<T: Copy + Default, const N: usize>() -> [T; N]
    ensures { N ≡ length result }
{
    [T::default(); N]
}

// Writes w from byte `at` on, where there is room for it.
pub fn place(m: &mut [u8], at: usize, w: u64) {
    if at < m.len() && m.len() - at >= 8 {
        wire::put_word(m, at, w);
    }
}

// Where m holds 8·n·n zeros: the identity matrix of n samples.
pub fn identity(m: &mut [u8], n: usize)
    requires { (n ≤ 513) × (length m.old ≤ 2105352) }
{
    for from_diagonal in m.chunks_mut(8 * n + 8) {
        place(from_diagonal, 0, 0x3ff0_0000_0000_0000);
    }
}

// Labels 1 0 1 0 ..
pub fn alternate(l: &mut [u8]) {
    for (k, label) in l.iter_mut().enumerate() {
        *label = u8::from(k % 2 == 0);
    }
}
