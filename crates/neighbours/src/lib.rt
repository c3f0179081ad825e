// Why a function or a local has no name, and where a name that is found stands (K7). The questions, in `functions` and `locals`, take any bytes.
#![tactic(auto)]

pub mod functions;
pub mod locals;
mod maps;

// The subsection whose map has the names of functions, and the one that has a map of local names for each function.
const FUNCTION_NAMES: u8 = 1;

const LOCAL_NAMES: u8 = 2;

// The nearest mapped index on one side, if any.
pub type Neighbour = Option<u32>;

// Where a name stands, its subsection and its position in its map; or why there is none, with the neighbours below and above.
#[derive(Clone, Copy)]
pub enum Why {
    Named(u8, u32),
    NoSubsection,
    NoGroup,
    NoEntry(Neighbour, Neighbour),
}
