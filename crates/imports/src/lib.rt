// From an AADL text to a plan: the reader's table goes through planning. A text of any bytes is answered, with any memory that is lent.
#![tactic(auto)]

ghost use Rattle.common.specs.Words.{length};
ghost use Rattle.reader.specs.Reader.{enough};
ghost use Rattle.imports.specs.Unique.{ImportGives};

use reader::read_table;
use tableplans::{Import, import_by};

// The table and the plan of a text. What the lent memory holds afterwards means nothing.
#[tactic(auto, unfolding(crate::specs::Imports::import_of))]
pub fn plan_text(
    text: &[u8],
    plain: &mut [u8],
    rows: &mut [usize],
    declared: &mut [u32],
    connected: &mut [u32],
    queued: &mut [u32],
    types: &mut [u32],
) -> Import
    ensures { ImportGives (enough (length plain.old) (length rows.old) (length declared.old)
        (length connected.old) (length queued.old) (length types.old)) text.now result }
{
    import_by(read_table(text, plain, rows, declared, connected, queued, types))
}
