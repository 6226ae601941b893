//! The certificate that goes with the image that the emitter answers.

ghost use Rattle.std.specs.Prelude.{◌≡◌, ◌≤◌, ◌∷◌, [], List, IfOk};
ghost use Rattle.ti_txt.specs.Image.{Block};
ghost use Rattle.certificate.specs.Whole.{certificate_of as certificate_of_lem};
ghost use Rattle.cert_rules.specs.Sweep.{Certified};
ghost use Rattle.flow_graph.specs.Rules.{IsGraph};
ghost use Rattle.graph_code.specs.Homes.{data_bytes, most_data};
ghost use Rattle.graph_code.specs.Order.{IsAlone};
ghost use Rattle.each_image.specs.Each.{each_heads};
ghost use Rattle.each_image.specs.Image.{code_words};
ghost use Rattle.emit_each.specs.Emitting.{IsEmitted, most_code};
ghost use Rattle.cert_images.specs.Images.{each_certificate};

use base_io::Memory;
use board_table::Board;
use certificate::Cert;
use emit_each::{heads_of, is_one_stretch, places_of};
use flow_graph::{Func, Graph, body_nodes};
use std::alloc::Global;

/// The function of a graph that has one.
fn main_of(g: &Graph) -> &Func
    requires alone { IsAlone g.now }
    ensures { g.now.functions ≡ result.now ∷ [] }
{
    &g.functions.as_slice()[0]
}

/// The certificate of the image that `emit_each` answers for the graph on the board: the image keeps every rule for it. A stretch costs a wake,
/// a sleep, and what its operations weigh.
#[tactic(auto, using(crate::proofs::Keeping::certified_ok))]
pub fn certificate_of(alloc: Global, g: &Graph, b: &Board) -> Result<Cert, Memory>
    requires rules { IsGraph g.now }
    requires alone { IsAlone g.now }
    requires objects { data_bytes g.now ≤ most_data }
    requires room { code_words (each_heads b.now g.now) g.now ≤ most_code }
    ensures exact { IfOk result (λ c. certificate_of_lem c ≡ each_certificate b.now g.now) }
    ensures certified { IfOk result (λ c. (blocks : List Block) → IsEmitted b.now g.now blocks → Certified blocks (certificate_of_lem c) b.now) }
{
    made(alloc, g, b)
}

/// The rows of the operations of a graph.
fn made(alloc: Global, g: &Graph, b: &Board) -> Result<Cert, Memory>
    requires rules { IsGraph g.now }
    requires alone { IsAlone g.now }
    requires objects { data_bytes g.now ≤ most_data }
    requires room { code_words (each_heads b.now g.now) g.now ≤ most_code }
    ensures { IfOk result (λ c. certificate_of_lem c ≡ each_certificate b.now g.now) }
{
    let main = main_of(g);
    let nodes = body_nodes(alloc, main.body.as_slice())?;
    let places = places_of(alloc, g.objects.as_slice())?;
    let heads = heads_of(alloc, nodes.len(), is_one_stretch(main, &nodes, b))?;
    emit_certs::certificate_of(alloc, b, &nodes, &places, &heads)
}
