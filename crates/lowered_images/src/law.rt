//! The theorem over all runs of images of programs.
ghost use Rattle.lowered_images.specs.Images.{AreLoweredHeld, AreLoweredImages, LoweredImagesAgree, LoweredImagesEndure, LoweredImagesWork};

use each_image::each_images_agree;
use lowered_carries::lowered_graphs_carry;

/// The image that the emitter gives for a typed program whose `main` calls none of its functions: over refills that each reach the budget every
/// run shows what the program does and no more, is never cut, and does at least one operation on each charge that another follows; under any refills it does no work behind a cut inside a stretch and never
/// stops by a fault; its blocks are an image, and some device can be loaded with it.
pub fn lowered_images_agree()
    ensures agrees { LoweredImagesAgree }
    ensures works { LoweredImagesWork }
    ensures endures { LoweredImagesEndure }
    ensures is_image { AreLoweredImages }
    ensures is_held { AreLoweredHeld }
{
    lowered_graphs_carry();
    each_images_agree();
}
