// Document 02, Note 10, "Trying a checkpoint spacing": a trial is one simulation that it asks for. What a trial is, is in specs/, the theorems about it are in
// proofs/; here are its types and what a step needs that touches no state: the generator, the choices and the figures.
use model::Refusal;

// draws.rt: the generator, and what a step chooses by its draws
pub mod draws;

// figures.rt: the numbers of the result
pub mod figures;

// Note 10: "a spacing k of 1 to 1,000, 1 to 30,000 steps" (most_spacing, most_steps in specs/Spacing).
pub const MOST_SPACING: usize = 1000;

pub const MOST_STEPS: usize = 30000;

// The five figures: deliveries, forced checkpoints, the most kept at any process after any step, and 1,000 times the forced checkpoints divided by the
// deliveries, as quotient and remainder.
#[derive(Clone, Copy)]
pub struct TrialFigures {
    pub deliveries: u32,
    pub forced: u32,
    pub most: usize,
    pub quotient: u32,
    pub remainder: u32,
}

// The figures of a simulation that is refused: "all figures are then 0" (no_figures in specs/Spacing).
pub const NO_FIGURES: TrialFigures = TrialFigures {
    deliveries: 0,
    forced: 0,
    most: 0,
    quotient: 0,
    remainder: 0,
};

// Whether a simulation is tried, or why it is refused.
pub type TrialAnswer = Result<(), Refusal>;

// What a simulation comes to: the answer, and the figures; refused, "all figures are then 0".
#[derive(Clone, Copy)]
pub struct TrialResult {
    pub answer: TrialAnswer,
    pub figures: TrialFigures,
}
