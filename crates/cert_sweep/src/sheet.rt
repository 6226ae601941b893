//! What the rules of the code look at.
ghost use Rattle.cert_sweep.specs.Rising.{Rises, rises_prop};

use board_table::Board;
use certificate::{FunctionRow, PointRow, StretchRow};
use ti_txt::Segment;

/// The image, the board and the rows, the function whose code is swept, and whether it is the first.
#[derive(Clone, Copy)]
pub struct Sheet<'a> {
    pub segments: &'a Vec<Segment>,
    pub board: &'a Board,
    pub functions: &'a Vec<FunctionRow>,
    pub stretches: &'a Vec<StretchRow>,
    pub points: &'a Vec<PointRow>,
    pub here: &'a FunctionRow,
    pub is_first: bool,
    pub ghost starts: { Rises (λ f. f.start) 0 functions.now.items } by { rises_prop (λ f. f.start) 0 functions.now.items },
    pub ghost heads: { Rises (λ s. s.head) 0 stretches.now.items } by { rises_prop (λ s. s.head) 0 stretches.now.items },
    pub ghost addresses: { Rises (λ p. p.address) 0 points.now.items } by { rises_prop (λ p. p.address) 0 points.now.items },
}
