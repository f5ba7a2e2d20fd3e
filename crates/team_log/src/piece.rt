//! What one chunk leaves.

use ktree::ChunkNo;
use overlay::Piece;

/// What the chunk of a number leaves.
#[derive(Drop)]
pub struct ChunkPiece {
    pub number: ChunkNo,
    pub piece: Piece,
}
