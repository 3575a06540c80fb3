// Which document a start belongs to.
#![tactic(auto)]

ghost use Rattle.std.specs.Prelude.{◌≡◌};
ghost use Rattle.page_number.specs.Answers.{page_number};

use number_types::{DocumentId, RangeStart};
use refusal::Refusal;

// The smallest document whose start is the asked one, for any offsets whose first is 0 and that never fall: the last one, where no
// document starts, need not be the number of terms. Refuses other offsets (6), and then a start that no document has (15). One pass
// to check the offsets, then a binary search.
pub fn page_number(offsets: &[u64], start: RangeStart) -> Result<DocumentId, Refusal>
    ensures { result ≡ page_number offsets.now start.0 }
{
    if !document_checks::offsets_hold_free(offsets) {
        return Err(Refusal::WrongDocuments);
    }
    let asked = start.0;
    let count = offsets.len() - 1;
    let at = sort::first_not_below(&offsets[..count], asked);
    if at < count {
        if offsets[at] == asked {
            return Ok(DocumentId(at as u64));
        }
    }
    Err(Refusal::NoSuchStart)
}
