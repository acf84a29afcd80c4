// The blocks written and deleted, in four words each.
ghost use Rattle.std.specs.Prelude.{◌≡◌, ◌+◌, ◌*◌, ◌≤◌};
ghost use Rattle.laws.specs.Basics.{length, pick};
ghost use Rattle.model.specs.Words.{most_blocks, kept_places};
ghost use Rattle.words.specs.{Frames.OnlyDisk, Layout.wide4, Layout.state_size};

use words::places;

// A checkpoint of `blocks` blocks is stored if `stores`.
fn bill_stored(w: &mut [u16], stores: bool, blocks: u16)
    requires { (length w.old ≡ state_size) × (wide4 w.old 4 ≤ most_blocks) }
    ensures only_disk { OnlyDisk w.old w.new }
    ensures w_after { (wide4 w.new 4 ≡ wide4 w.old 4 + pick stores blocks 0) × (wide4 w.new 8 ≡ wide4 w.old 8) }
{
    if stores {
        let written = words::wide4(w, places::WRITTEN);
        words::put4(w, places::WRITTEN, written + blocks as u64);
    }
}

// `gone` checkpoints of `blocks` blocks each are deleted.
fn bill_deleted(w: &mut [u16], gone: usize, blocks: u16)
    requires { (length w.old ≡ state_size) × (wide4 w.old 8 ≤ most_blocks) × (gone ≤ kept_places) }
    ensures only_disk { OnlyDisk w.old w.new }
    ensures w_unchanged { (wide4 w.new 4 ≡ wide4 w.old 4) × (wide4 w.new 8 ≡ wide4 w.old 8 + gone * blocks) }
{
    if 0 < gone {
        let less = words::wide4(w, places::DELETED);
        words::put4(w, places::DELETED, less + gone as u64 * blocks as u64);
    }
}

// One more is stored if `stores`, and `gone` are deleted.
pub fn bill(w: &mut [u16], stores: bool, gone: usize, blocks: u16)
    requires { (length w.old ≡ state_size) × (wide4 w.old 4 ≤ most_blocks) × (wide4 w.old 8 ≤ most_blocks) × (gone ≤ kept_places) }
    ensures only_disk { OnlyDisk w.old w.new }
    ensures w_after { (wide4 w.new 4 ≡ wide4 w.old 4 + pick stores blocks 0) × (wide4 w.new 8 ≡ wide4 w.old 8 + gone * blocks) }
{
    bill_stored(w, stores, blocks);
    bill_deleted(w, gone, blocks);
}
