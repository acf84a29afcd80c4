// What a line says of each answer: the number that document 01 gives a refusal, the value, the count of deletions.
ghost use Rattle.std.specs.Prelude.{◌≡◌, Result, Ok, Err};
ghost use Rattle.model.specs.{declared.Refusal.Refusal, Refusals.number};
ghost use Rattle.whole_runs.specs.Outcomes.{Report, refusing, accepting, start_report, checkpoint_report, send_report, deliver_report, recover_report};
ghost use Rattle.listing.specs.{Lines.number_said, Summarised.report_in, Reports.count_report, Reports.start_refused, Reports.checkpoint_refused, Reports.send_refused, Reports.deliver_refused, Reports.recover_refused, Reports.count_refused};

use crate::Summary;
use model::{Delivery, Recovery, Refusal, Stored};
use std::num::NonZeroU8;

#[tactic(auto, unfolding(model::specs::Refusals::number))]
pub fn number_of(r: Refusal) -> u8
    ensures { result ≡ number r }
{
    r as u8
}

impl Summary {
    // Of a call that is accepted.
    #[tactic(auto, unfolding(crate::specs::Summarised::report_in))]
    fn accepting(value: Option<u64>, deletions: usize) -> Summary
        ensures { report_in result ≡ accepting value deletions }
    {
        Summary {
            refused: None,
            value,
            deletions,
        }
    }

    // The number that a line says: that of the refusal, 0 if there is none.
    pub fn number(self) -> u8
        ensures { result ≡ number_said self.refused }
    {
        self.refused.map_or(0, NonZeroU8::get)
    }
}

#[tactic(auto, unfolding(crate::specs::Summarised::report_in))]
impl From<Refusal> for Summary {
    ghost from_gives = { λ why s. report_in s ≡ refusing why };

    fn from(why: Refusal) -> Summary {
        Summary {
            refused: NonZeroU8::new(number_of(why)),
            value: None,
            deletions: 0,
        }
    }
}

// What an accepted call answers, and what a line says of it. `report` is the model's report of the call's answer, refused or accepted.
pub trait Accepted {
    ghost report: { Result Self Refusal → Report };

    fn summary(self) -> Summary
        ensures { report_in result ≡ report (Ok self) };

    // Of a refusal a report has the number alone.
    ghost refusal: { (why : Refusal) → report (Err why) ≡ refusing why };
}

#[tactic(auto, unfolding(whole_runs::specs::Outcomes::start_report))]
impl Accepted for () {
    ghost report = { start_report };

    ghost refusal = { start_refused };

    fn summary(self) -> Summary {
        Summary::accepting(None, 0)
    }
}

#[tactic(auto, unfolding(whole_runs::specs::Outcomes::checkpoint_report))]
impl Accepted for Stored {
    ghost report = { checkpoint_report };

    ghost refusal = { checkpoint_refused };

    fn summary(self) -> Summary {
        Summary::accepting(Some(u64::from(self.index.0)), self.deleted)
    }
}

// The number of a message.
#[tactic(auto, unfolding(whole_runs::specs::Outcomes::send_report))]
impl Accepted for u32 {
    ghost report = { send_report };

    ghost refusal = { send_refused };

    fn summary(self) -> Summary {
        Summary::accepting(Some(u64::from(self)), 0)
    }
}

#[tactic(auto, unfolding(whole_runs::specs::Outcomes::deliver_report))]
impl Accepted for Delivery {
    ghost report = { deliver_report };

    ghost refusal = { deliver_refused };

    fn summary(self) -> Summary {
        Summary::accepting(self.forced.map(|index| u64::from(index.0)), self.deleted)
    }
}

#[tactic(auto, unfolding(whole_runs::specs::Outcomes::recover_report))]
impl Accepted for Recovery {
    ghost report = { recover_report };

    ghost refusal = { recover_refused };

    fn summary(self) -> Summary {
        Summary::accepting(Some(self.rolled_back as u64), self.deleted)
    }
}

// How many entries were listed or written.
#[tactic(auto, unfolding(crate::specs::Reports::count_report))]
impl Accepted for usize {
    ghost report = { count_report };

    ghost refusal = { count_refused };

    fn summary(self) -> Summary {
        Summary::accepting(Some(self as u64), 0)
    }
}

impl<A: Accepted> From<Result<A, Refusal>> for Summary {
    ghost from_gives = { λ answer s. report_in s ≡ A.report answer };

    fn from(answer: Result<A, Refusal>) -> Summary {
        match answer {
            Err(why) => Summary::from(why),
            Ok(a) => a.summary(),
        }
    }
}
