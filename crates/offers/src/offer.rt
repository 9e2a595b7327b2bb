ghost use Rattle.std.specs.Prelude.{◌≡◌, ◌≢◌, [], ◌++◌, OnOk, OnErr, IfOk, IfErr};
ghost use Rattle.sha2.specs.Sha256.{sha256};
ghost use Rattle.lang_base.specs.Behaviour.{IsBeginningOf};
ghost use Rattle.offers.specs.Fronts.{AnswersOther};
ghost use Rattle.offers.specs.Reading.{AreOnlyParts, IsNoText, IsUnaccepted, Rejects, RejectsForm, RefusesMore, RejectsMore};
ghost use Rattle.offers.specs.Text.{text_of, PartsFit};

use crate::errors::OfferError;
use crate::form::parts_at;
use crate::parts::{Parts, PartsOf};
use lang_base::{FormError, Language, NoMemory, Pass};
use sha2::{Digest, Sha256};
use std::alloc::Global;
use std::marker::Model;

/// An input, an output and a certificate for which the pass says yes.
#[derive(Drop)]
pub struct Offer<P: Pass> {
    parts: PartsOf<P>,
}

impl<P: Pass> Model for Offer<P> {
    ghost use Rattle.offers.specs.declared.parts.Parts.{Parts};

    ghost Value = { Parts P.In.Fun P.Out.Fun P.Cert };

    ghost view = { λ offer. offer.parts };

    ghost invariant = { λ offer. P.accepts offer.parts.input offer.parts.output offer.parts.certificate };
}

impl<P: Pass> Offer<P> {
    /// The offer of these parts, if the pass's rules hold of them.
    pub fn check(
        alloc: Global,
        input: <P::In as Language>::Fun,
        output: <P::Out as Language>::Fun,
        certificate: P::Cert,
    ) -> Result<Offer<P>, OfferError>
        ensures ok { IfOk result (λ offer. offer ≡ record { input = input; output = output; certificate = certificate }) }
        ensures accepted { OnOk result (P.accepts input output certificate) }
        ensures refused { IfErr result (λ e. e ≢ OfferError.NoMemory →
            (e ≡ OfferError.Refused) × (P.accepts input output certificate → ⊥)) }
    {
        if P::check(alloc, &input, &output, &certificate)? {
            Ok(Offer::known(input, output, certificate))
        } else {
            Err(OfferError::Refused)
        }
    }

    /// The offer of parts of which the pass's rules are known to hold; takes no memory.
    pub fn known(
        input: <P::In as Language>::Fun,
        output: <P::Out as Language>::Fun,
        certificate: P::Cert,
    ) -> Offer<P>
        requires { P.accepts input output certificate }
        ensures { result ≡ record { input = input; output = output; certificate = certificate } }
    {
        Offer {
            parts: Parts {
                input,
                output,
                certificate,
            },
        }
    }

    /// The parts that the bytes spell, all of the bytes, whether the pass accepts them or not.
    pub fn parts(alloc: Global, bytes: &[u8]) -> Result<PartsOf<P>, FormError>
        ensures fits { IfOk result (λ parts. PartsFit P.In.fits P.Out.fits P.cert_fits parts) }
        ensures spelled { IfOk result (λ parts. bytes.now ≡ text_of P.In.Language P.Out.Language P.Pass parts) }
        ensures only { IfOk result (AreOnlyParts P.In.Language P.Out.Language P.Pass bytes.now) }
        ensures refused { IfErr result (λ e. e ≢ FormError.NoMemory → IsNoText P.In.Language P.Out.Language P.Pass bytes.now) }

        // Which fault it is: no bytes, another first byte, bytes behind the form.
        ensures empty { bytes.now ≡ [] → result ≡ Err FormError.Short }
        ensures tag { AnswersOther P.NUMBER bytes.now result (Err FormError.BadTag) }
        ensures behind { RefusesMore P.In.Language P.Out.Language P.Pass bytes.now result }
    {
        let (parts, behind) = parts_at::<P>(alloc, bytes)?;
        if !behind.is_empty() {
            return Err(FormError::NotCanonical);
        }
        Ok(parts)
    }

    /// The offer that the bytes spell, all of the bytes, if the pass accepts it: nobody's certificate
    /// is trusted.
    pub fn read(alloc: Global, bytes: &[u8]) -> Result<Offer<P>, OfferError>
        ensures spelled { IfOk result (λ offer. bytes.now ≡ text_of P.In.Language P.Out.Language P.Pass offer) }
        ensures accepted { IfOk result (λ offer. P.accepts offer.input offer.output offer.certificate) }

        // What is rejected is the text of no accepted offer, and unless it is 301 of no parts at all.
        ensures rejected { IfErr result (Rejects P.In.Language P.Out.Language P.Pass bytes.now) }
        ensures form { IfErr result (RejectsForm P.In.Language P.Out.Language P.Pass bytes.now) }
        ensures refused { result ≡ Err OfferError.Refused → IsUnaccepted P.In.Language P.Out.Language P.Pass bytes.now }

        // Which fault of the form it is: no bytes, another first byte, bytes behind the form.
        ensures empty { bytes.now ≡ [] → result ≡ Err OfferError.Short }
        ensures tag { AnswersOther P.NUMBER bytes.now result (Err OfferError.BadTag) }
        ensures behind { RejectsMore P.In.Language P.Out.Language P.Pass bytes.now result }
    {
        let parts = Self::parts(alloc, bytes)?;
        Self::check(alloc, parts.input, parts.output, parts.certificate)
    }

    /// Writes the offer at the end of `out`, which a refusal leaves as it was.
    pub fn write(&self, out: &mut Vec<u8>) -> Result<(), NoMemory>
        ensures ok { OnOk result (out.new.items ≡ out.old.items ++ text_of P.In.Language P.Out.Language P.Pass self.now) }
        ensures err { OnErr result (out.new.items ≡ out.old.items) }
    {
        let before = out.len();
        let written = self.append(out);
        if written.is_err() {
            out.truncate(before);
        }
        written
    }

    /// Writes the offer at the end of `out`, which a refusal may leave longer.
    fn append(&self, out: &mut Vec<u8>) -> Result<(), NoMemory>
        ensures ok { OnOk result (out.new.items ≡ out.old.items ++ text_of P.In.Language P.Out.Language P.Pass self.now) }
        ensures err { OnErr result (IsBeginningOf out.old.items out.new.items) }
    {
        self.validated();
        let parts = &self.parts;
        out.push(P::NUMBER)?;
        P::In::write(&parts.input, out)?;
        P::Out::write(&parts.output, out)?;
        P::write_cert(&parts.input, &parts.output, &parts.certificate, out)
    }

    /// The name of the offer: the SHA-256 of its text.
    pub fn name(&self, alloc: Global) -> Result<[u8; 32], NoMemory>
        ensures { IfOk result (λ digest. digest ≡ sha256 (text_of P.In.Language P.Out.Language P.Pass self.now)) }
    {
        let mut text = Vec::new(alloc);
        self.write(&mut text)?;
        Ok(Sha256::digest(text.as_slice()))
    }

    pub fn input(&self) -> &<P::In as Language>::Fun
        ensures { result.now ≡ self.now.input }
    {
        &self.parts.input
    }

    pub fn output(&self) -> &<P::Out as Language>::Fun
        ensures { result.now ≡ self.now.output }
    {
        &self.parts.output
    }

    pub fn certificate(&self) -> &P::Cert
        ensures { result.now ≡ self.now.certificate }
    {
        &self.parts.certificate
    }

    /// What the type keeps, for a caller's proof.
    pub fn validated(&self)
        ensures accepted { P.accepts self.now.input self.now.output self.now.certificate }
        ensures fits { PartsFit P.In.fits P.Out.fits P.cert_fits self.now }
    {
        let parts = &self.parts;
        P::In::known(&parts.input);
        P::Out::known(&parts.output);
    }
}
