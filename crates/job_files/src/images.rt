//! Texts of images.
ghost use Rattle.std.specs.Prelude.{MatchResult};
ghost use Rattle.ti_txt.specs.Bytes.{blocks_of};
ghost use Rattle.ti_txt.specs.Grammar.{Holds};
ghost use Rattle.job_files.specs.Answers.{IsRefusedFor, answer_of};
ghost use Rattle.job_files.specs.Images.{RefusesImage};

use crate::refusal::{ImageRefusal, Refusal};
use crate::status::Status;
use std::alloc::Global;
use ti_txt::{Image, TxtFault, read};

/// The image of a text.
pub fn image_of(alloc: Global, text: &[u8]) -> Result<Image, Status>
    ensures { MatchResult result (λ image. Holds text.now (blocks_of image)) (λ s. IsRefusedFor (RefusesImage text.now) (answer_of s)) }
{
    let (fault, at) = match read(alloc, text) {
        Ok(image) => return Ok(image),
        Err(TxtFault::BadByte { at }) => (ImageRefusal::BadByte, at),
        Err(TxtFault::Overlap { at }) => (ImageRefusal::Overlap, at),
        Err(TxtFault::PastEnd { at }) => (ImageRefusal::PastEnd, at),
        Err(TxtFault::Unmapped { at }) => (ImageRefusal::Unmapped, at),
        Err(TxtFault::NoEnd { at }) => (ImageRefusal::NoEnd, at),
        Err(TxtFault::Memory) => return Err(Status::Memory),
    };
    Err(Status::Refused(Refusal::Image { fault, at }))
}
