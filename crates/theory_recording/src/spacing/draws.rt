// The generator, in the form that document 01 names for it: wrapping add with a helper for the product's remainder by two to the 32. And what a step chooses.
ghost use Rattle.std.specs.Prelude.{◌≡◌, ◌&&◌, ◌*◌, ◌%◌, ◌≤◌, ◌<◌};
ghost use Rattle.laws.specs.Basics.{eqb};
ghost use Rattle.model.specs.Words.{most_processes};
ghost use Rattle.theory_recording.specs.spacing.Spacing.{generated, draw, chosen_receiver_of, is_due_of, most_steps};

// The remainder of a product by two to the 32.
fn low_product(a: u32, b: u32) -> u32
    ensures { result ≡ a * b % 4294967296 }
{
    a.wrapping_mul(b)
}

// "takes the last value, multiplies by 1,664,525, adds 1,013,904,223 and keeps the low 32 bits"
pub fn next(x: u32) -> u32
    ensures { result ≡ generated x }
{
    low_product(x, 1664525).wrapping_add(1013904223)
}

// "a draw is the new value divided by 65,536, remainder dropped"
pub fn draw_of(x: u32) -> u32
    ensures { result ≡ draw x }
{
    x / 65536
}

// "p sends to p + 1 + ((d div 2) mod (n − 1)), the sum taken modulo n"
pub fn chosen_receiver(n: usize, p: usize, d: u32) -> usize
    requires { (2 ≤ n) × (n ≤ most_processes) × (p < n) }
    ensures { (result ≡ chosen_receiver_of n p d) × (result < most_processes) }
{
    let half = (d / 2) as usize;
    (p + 1 + half % (n - 1)) % n
}

// Whether a process takes a checkpoint: "After each k of its own sends and deliveries". It had done `acted` of them before this step, and did `more` in it, one or none.
pub fn is_due(k: u32, acted: u32, more: u32) -> bool
    requires { (1 ≤ k) × (acted ≤ most_steps) }
    ensures { result ≡ (eqb more 1 && is_due_of k acted) }
{
    (more == 1) & ((acted + 1) % k == 0)
}
