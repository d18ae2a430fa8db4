// Why there is no answer.
use mob_list::fault::Fault;
use mob_slice::Formula;

/// Why a search has no answer: the row of a trip, from 0, with the first formula of its nearest
/// approach that has a part that does not fit, or out of memory.
pub type NearFault = Fault<(u32, Formula)>;
