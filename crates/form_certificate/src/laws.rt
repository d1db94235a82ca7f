//! Laws of certificates that are read again. The functions do nothing: each stands for its statement.
ghost use Rattle.form_certificate.specs.Laws.{RightAnswerLaw, CertifiedLaw};

/// What is answered of bytes is so: that the certificate holds exactly of a journal, End and its certificate, and of
/// others their first fault.
pub fn answer_is_right()
    ensures { RightAnswerLaw }
{}

/// The certificate of what is written of a journal within its limits holds.
pub fn certified_holds()
    ensures { CertifiedLaw }
{}
