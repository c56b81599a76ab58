// A block with its number.
use crate::block::Block;

/// The targets from 512 times the number on.
#[derive(Clone, Copy, Debug)]
pub struct Cell {
    pub number: u32,
    pub block: Block,
}
