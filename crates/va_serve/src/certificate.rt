// The text of a certificate, on its way from where it is written to its reply.
ghost use Rattle.std.specs.Prelude.{◌≡◌, List, ℕ, string_bytes};
ghost use Rattle.va_core.specs.Texts.{IsOneLine};

use std::marker::Model;

/// The text of a certificate, which is one line.
#[derive(Drop)]
pub struct CertificateText {
    text: String,
}

impl Model for CertificateText {
    ghost Value = { List ℕ };

    ghost view = { λ certificate. string_bytes certificate.text };

    ghost invariant = { λ certificate. IsOneLine (string_bytes certificate.text) };
}

impl CertificateText {
    pub fn new(text: String) -> CertificateText
        requires { IsOneLine (string_bytes text) }
        ensures { result ≡ string_bytes text }
    {
        CertificateText { text }
    }

    pub fn as_str(&self) -> &str
        ensures text { result.now ≡ self.now }
        ensures line { IsOneLine result.now }
    {
        self.text.as_str()
    }
}
