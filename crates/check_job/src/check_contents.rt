//! What the texts of a check hold, and whether every rule holds of it.
ghost use Rattle.std.specs.Prelude.{◌≡◌, MatchResult};
ghost use Rattle.certificate.specs.Texts.{Holds as HoldsCertificate};
ghost use Rattle.certificate.specs.Whole.{certificate_of};
ghost use Rattle.job_files.specs.Answers.{IsRefusedFor, answer_of};
ghost use Rattle.job_files.specs.Inputs.{RefusesText};
ghost use Rattle.check_job.specs.Checking.{AreCertified, AreHeld, IsBadCertificate, IsCertified, RefusesCheckTexts, RefusesRules};
ghost use Rattle.check_job.specs.InCode.{answer_of_rules, check_named, held_in, texts_seen};

use crate::check_texts::Texts;
use crate::job::CheckJob;
use board_table::Board;
use cert_check::Refused;
use certificate::{Cert, CertText};
use job_files::{Refusal, Status, board_with, image_of, text_refused};
use std::alloc::Global;
use ti_txt::Image;

/// What the texts of a check hold, each of which is in its grammar.
#[derive(Drop)]
pub struct Contents {
    pub image: Image,
    pub certificate: Cert,
    pub board: Board,
}

// The certificate of a text, or the status that refuses it by its name.
fn certificate_in(alloc: Global, name: &str, text: &[u8]) -> Result<Cert, Status>
    ensures { MatchResult result (λ c. HoldsCertificate text.now (certificate_of c))
        (λ s. IsRefusedFor (RefusesText (IsBadCertificate name.now text.now)) (answer_of s)) }
{
    match certificate::read(alloc, text) {
        Ok(certificate) => Ok(certificate),
        Err(CertText::BadLine { at }) => Err(text_refused(alloc, name, at)),
        Err(CertText::Memory) => Err(Status::Memory),
    }
}

// What the texts of a check hold. They are looked at in the order image, certificate, board.
fn contents_of(alloc: Global, job: &CheckJob, texts: &Texts) -> Result<Contents, Status>
    ensures { MatchResult result
        (λ h. AreHeld job.now.budget (texts_seen texts.now) (held_in h))
        (λ s. IsRefusedFor (RefusesCheckTexts (check_named job.now) (texts_seen texts.now)) (answer_of s)) }
{
    let image = image_of(alloc, &texts.image)?;
    let certificate = certificate_in(alloc, job.certificate, &texts.certificate)?;
    let board = board_with(alloc, &texts.board, job.budget)?;
    Ok(Contents {
        image,
        certificate,
        board,
    })
}

// How a refusal by the rules is told.
fn refused(refused: Refused) -> Status
    ensures { answer_of result ≡ answer_of_rules refused }
{
    match refused {
        Refused::Rule {
            rule,
            address,
            left,
            right,
        } => Status::Refused(Refusal::Certificate {
            rule,
            address,
            left,
            right,
        }),
        Refused::Memory => Status::Memory,
    }
}

// Whether every rule holds; if not, the status that tells the first that doesn't.
fn certified(alloc: Global, contents: &Contents) -> Result<(), Status>
    ensures { MatchResult result
        (λ _. IsCertified (held_in contents.now))
        (λ s. IsRefusedFor (RefusesRules (held_in contents.now)) (answer_of s)) }
{
    let Contents {
        image,
        certificate,
        board,
    } = contents;
    match cert_check::check(alloc, image, certificate, board) {
        Ok(()) => Ok(()),
        Err(fault) => Err(refused(fault)),
    }
}

/// Whether the texts of a check hold an image that its certificate certifies on the board; if not, the status that refuses them.
pub fn certified_texts(alloc: Global, job: &CheckJob, texts: &Texts) -> Result<(), Status>
    ensures { MatchResult result
        (λ _. AreCertified job.now.budget (texts_seen texts.now))
        (λ s. IsRefusedFor (RefusesCheckTexts (check_named job.now) (texts_seen texts.now)) (answer_of s)) }
{
    let contents = contents_of(alloc, job, texts)?;
    certified(alloc, &contents)
}
