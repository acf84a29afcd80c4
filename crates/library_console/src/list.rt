// The checkpoints that the caller's processes keep, written to a lent list as deletions are. No word changes.
ghost use Rattle.std.specs.Prelude.{◌≡◌, ◌∷◌, ◌+◌, ◌*◌, ◌≤◌, ◌<◌};
ghost use Rattle.laws.specs.Basics.{true, [], ℕ, length, sets};
ghost use Rattle.laws.specs.Lists.{table};
ghost use Rattle.model.specs.{Sound.sound, Steps.listed, Words.most_processes, Words.kept_places};
ghost use Rattle.whole_runs.specs.Outcomes.{pairs};
ghost use Rattle.words.specs.Layout.{word, count_of, kept_count_at_of, index_at_of, checkpoint_in, run_of, state_size};
ghost use Rattle.theory_roles.specs.Console.{console_list};
ghost use Rattle.library_console.specs.{Asked.list_as, Listed.listed_of, Listed.listed_below};

use crate::denied;
use model::Refusal;
use theory_roles::{ListAnswer, Operation, Role};
use words::places;

// The pair of the checkpoint in place k of process p goes to the lent list from place `at` on.
fn write_pair(w: &[u16], p: usize, k: usize, deleted: &mut [u16], at: usize)
    requires { (length w.now ≡ state_size) × (p < most_processes) × (k < most_processes) × (1 ≤ word w.now (index_at_of p k)) × (at + 2 ≤ length deleted.old) }
    ensures { deleted.new ≡ sets deleted.old at (p ∷ (checkpoint_in w.now p k).index.0 ∷ []) }
{
    let index_at = places::index_at(p, k);
    let index = words::index_of(w[index_at]);
    deleted[at] = p as u16;
    deleted[at + 1] = index.0;
}

// Those of the first `kept_count` checkpoints.
fn write_kept(w: &[u16], p: usize, kept_count: usize, deleted: &mut [u16], at: usize)
    requires { (length w.now ≡ state_size) × (p < most_processes) × (kept_count ≤ most_processes) × (at + 2 * kept_count ≤ length deleted.old) × ((k : ℕ) → k < kept_count → 1 ≤ word w.now (index_at_of p k)) }
    ensures { deleted.new ≡ sets deleted.old at (pairs (listed p (table kept_count (checkpoint_in w.now p)))) }
{
    for k in 0..kept_count {
        write_pair(w, p, k, deleted, at + 2 * k);
    }
}

// Those of all that process p keeps, if the caller may see them, after `count` others. The result says how many there are.
fn write_part(
    w: &[u16],
    role: Role,
    owned: u32,
    p: usize,
    deleted: &mut [u16],
    count: usize,
) -> usize
    requires { (sound (run_of w.now) ≡ true) × (p < count_of w.now) × (count ≤ kept_places) × (2 * count + 2 * word w.now (kept_count_at_of p) ≤ length deleted.old) }
    ensures value { result ≡ length (listed_of role owned (count_of w.now) w.now p) }
    ensures deleted_after { deleted.new ≡ sets deleted.old (2 * count) (pairs (listed_of role owned (count_of w.now) w.now p)) }
{
    let n = denied::number_of(w[places::COUNT]);
    let seen = denied::is_entitled(role, owned, n, p);
    if !seen {
        return 0;
    }
    let kept_count_at = places::kept_count_at(p);
    let kept_count = denied::number_of(w[kept_count_at]);
    write_kept(w, p, kept_count, deleted, 2 * count);
    kept_count
}

// Those of n processes, one after the other, go to the front of the lent list.
fn write_list(w: &[u16], role: Role, owned: u32, n: usize, deleted: &mut [u16]) -> usize
    requires { (sound (run_of w.now) ≡ true) × (n ≡ count_of w.now) × (2 * n * n ≤ length deleted.old) }
    ensures value { result ≡ length (listed_below role owned (count_of w.now) w.now (count_of w.now)) }
    ensures deleted_after { deleted.new ≡ sets deleted.old 0 (pairs (listed_below role owned (count_of w.now) w.now (count_of w.now))) }
{
    let mut count = 0;
    for p in 0..n {
        let more = write_part(w, role, owned, p, deleted, count);
        count += more;
    }
    count
}

// The list for a caller with this role.
fn list_as(role: Role, owned: u32, w: &[u16], deleted: &mut [u16]) -> ListAnswer
    ensures value { result ≡ (console_list (record { role = role; owned = owned }) (run_of w.now) deleted.old).answer }
    ensures deleted_after { deleted.new ≡ (console_list (record { role = role; owned = owned }) (run_of w.now) deleted.old).deleted }
{
    let allowed = theory_roles::may(role, Operation::List);
    if !allowed {
        return Err(Refusal::Denied);
    }
    let sound = words_sound::is_sound(w);
    if !sound {
        return Err(Refusal::UnsoundState);
    }
    let n = denied::number_of(w[places::COUNT]);
    let short = admissions::are_deletions_short(deleted.len(), n);
    if short {
        return Err(Refusal::ListTooShort);
    }
    let count = write_list(w, role, owned, n, deleted);
    Ok(count)
}

// The checkpoints that the caller's processes keep go to the front of the lent list, as deletions do.
pub fn list(role: u32, owned: u32, w: &[u16], deleted: &mut [u16]) -> ListAnswer
    ensures w_value { run_of w.now ≡ (list_as role owned (run_of w.now) deleted.old).run }
    ensures value { result ≡ (list_as role owned (run_of w.now) deleted.old).answer }
    ensures deleted_after { deleted.new ≡ (list_as role owned (run_of w.now) deleted.old).deleted }
{
    let claim = denied::claim_of(role);
    match claim {
        None => Err(Refusal::Denied),
        Some(known) => list_as(known, owned, w, deleted),
    }
}
