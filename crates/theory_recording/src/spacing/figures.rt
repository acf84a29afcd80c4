// The numbers of a result.
ghost use Rattle.std.specs.Prelude.{◌≡◌, ◌≤◌};
ghost use Rattle.theory_recording.specs.spacing.Spacing.{out_of_range, quotient_of, remainder_of_def, most_steps};

// Whether a parameter of a simulation is out of its range.
pub fn is_outside(low: usize, high: usize, x: usize) -> bool
    ensures { result ≡ out_of_range low high x }
{
    x < low || high < x
}

// "1,000 × forced divided by deliveries as quotient and remainder, both 0 without deliveries"
pub fn quotient_of(forced: u32, deliveries: u32) -> u32
    requires { forced ≤ most_steps }
    ensures { result ≡ quotient_of forced deliveries }
{
    (1000 * forced).checked_div(deliveries).unwrap_or(0)
}

pub fn remainder_of(forced: u32, deliveries: u32) -> u32
    requires { forced ≤ most_steps }
    ensures { result ≡ remainder_of_def forced deliveries }
{
    (1000 * forced).checked_rem(deliveries).unwrap_or(0)
}
