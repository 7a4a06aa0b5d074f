//! The query of a line that reads, once the store is open.

ghost use Rattle.std.specs.Prelude.{◌≡◌};
ghost use Rattle.uc_tool_opening.specs.Asked as lines;

use uc_query_read::Query;
use uc_script::Seq;

/// The sequence that a line names, where `last` is the last one at opening.
pub fn seq_at(last: u64, at: Seq) -> u64
    ensures { result ≡ lines.seq_at last at }
{
    match at {
        Seq::Number(number) => number,
        Seq::Last => last,
    }
}

/// The query of a line of a script or of a head, where `last` is the last sequence at opening.
pub fn query_of(last: u64, asked: uc_script::Query) -> Query
    ensures { result ≡ lines.query_of last asked }
{
    match asked {
        uc_script::Query::Get { key, at } => {
            let at = seq_at(last, at);
            Query::Get { key, at }
        }
        uc_script::Query::Scan {
            low,
            high,
            limit,
            at,
        } => {
            let at = seq_at(last, at);
            Query::Scan {
                low,
                high,
                at,
                limit,
            }
        }
    }
}
