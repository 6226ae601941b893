//! The parts of a check, in their order: the tables, then where each point stands.
ghost use Rattle.std.specs.Prelude.{◌≡◌, MatchResult, None};
ghost use Rattle.ti_txt.specs.Bytes.{blocks_of};
ghost use Rattle.certificate.specs.Rows.{point_of};
ghost use Rattle.cert_rules.specs.Tables.{point_fault, tables_fault};
ghost use Rattle.cert_state.specs.Shown.{functions_in, shown_fault};
ghost use Rattle.cert_check.specs.Checking.{Tells};

use crate::checking::refusal;
use crate::points::order_fault;
use crate::refused::Refused;
use crate::row_rules::first_fault;
use board_table::Board;
use cert_state::Fault;
use certificate::{FunctionRow, PointRow, StretchRow};
use ti_txt::Image;

fn told(fault: Option<Fault>) -> Result<(), Refused>
    ensures { MatchResult result (λ _. shown_fault fault ≡ None) (λ refused. Tells refused (shown_fault fault)) }
{
    match fault {
        None => Ok(()),
        Some(fault) => Err(refusal(fault)),
    }
}

/// Whether an image and the rows of its functions and stretches keep every rule on the tables, for a budget in the board's
/// energy units; or the first that they break. It takes no memory.
pub fn tables(
    img: &Image,
    budget: u64,
    functions: &[FunctionRow],
    stretches: &[StretchRow],
    b: &Board,
) -> Result<(), Refused>
    ensures { MatchResult result
        (λ _. tables_fault (blocks_of img.now) budget (functions_in functions.now) stretches.now b.now ≡ None)
        (λ refused. Tells refused (tables_fault (blocks_of img.now) budget (functions_in functions.now) stretches.now b.now)) }
{
    told(first_fault(img, budget, functions, stretches, b))
}

/// Whether a point lies inside a function and outside heads, and is of a stretch of that function; or how it breaks the rule
/// `Order`. It takes no memory.
pub fn point_order(
    p: &PointRow,
    functions: &[FunctionRow],
    stretches: &[StretchRow],
) -> Result<(), Refused>
    ensures { MatchResult result
        (λ _. point_fault (functions_in functions.now) stretches.now (point_of p.now) ≡ None)
        (λ refused. Tells refused (point_fault (functions_in functions.now) stretches.now (point_of p.now))) }
{
    told(order_fault(p, functions, stretches))
}
