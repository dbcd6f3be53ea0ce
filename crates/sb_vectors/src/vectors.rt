//! What commands ask of boxes, live and spare.

ghost use Rattle.std.specs.Prelude.{◌≡◌, None, IfOk, OnErr};
ghost use Rattle.sb_relation.specs.Fits.{foreign_method_fits, foreign_rule_fits};
ghost use Rattle.sb_relation.specs.Foreign.{attach_rules, method_rules};
ghost use Rattle.sb_registry.specs.Boxes.{boxes_of, repeated_in};
ghost use Rattle.sb_vectors.specs.Vectors.{Registers, Retires, has_box, outlives_run};

use sb_registry::{Boxes, Registry};
use sb_value::{Bytes, Names, Schema};
use std::alloc::AllocError;

/// The code of the storage method temp.
const TEMP: u16 = 3;

/// The least code of another author.
const FIRST_FOREIGN: u16 = 1000;

/// All boxes, live and spare. What holds them lends none.
pub trait Vectors: Boxes {
    /// Whether a box of this code is among the live ones or the spare ones, the storage methods or the attachments.
    fn has_code(&self, live: bool, method: bool, code: u16) -> bool
        ensures { result ≡ has_box (Self.meanings self.now) live method code };

    /// Whether the storage method of a code, live or spare, says that it keeps relations of these columns and this key.
    fn method_fits(&self, code: u16, schema: &Schema, key: &Names) -> bool
        ensures { result ≡ foreign_method_fits (method_rules code (boxes_of (Self.meanings self.now)).methods) schema.now key.now };

    /// Whether the attachment of a code, live or spare, says that it may stand on these columns with this desc.
    fn rule_fits(&self, code: u16, schema: &Schema, desc: &Bytes) -> bool
        ensures { result ≡ foreign_rule_fits (attach_rules code (boxes_of (Self.meanings self.now)).attachments) schema.now desc.now };

    /// Whether relations of a storage method, live or spare, outlive the run.
    fn outlives(&self, method: u16) -> bool
        ensures { result ≡ outlives_run (Self.meanings self.now) method };

    /// Makes the spare box of this kind and code live. False where none is spare.
    fn register(&mut self, method: bool, code: u16) -> Result<bool, AllocError>
        requires unique { repeated_in (Self.meanings self.old) ≡ None }

        ensures ok { IfOk result (λ moved. Registers method code moved (Self.meanings self.old) (Self.meanings self.new)) }
        ensures unique { IfOk result (λ moved. repeated_in (Self.meanings self.new) ≡ None) }
        ensures err { OnErr result (Self.meanings self.new ≡ Self.meanings self.old) };

    /// Makes the live box of this kind and code spare. False where none is live.
    fn retire(&mut self, method: bool, code: u16) -> Result<bool, AllocError>
        requires unique { repeated_in (Self.meanings self.old) ≡ None }

        ensures ok { IfOk result (λ moved. Retires method code moved (Self.meanings self.old) (Self.meanings self.new)) }
        ensures unique { IfOk result (λ moved. repeated_in (Self.meanings self.new) ≡ None) }
        ensures err { OnErr result (Self.meanings self.new ≡ Self.meanings self.old) };
}

impl Vectors for Registry {
    fn has_code(&self, live: bool, method: bool, code: u16) -> bool {
        match (live, method) {
            (true, true) => self.method(code).is_some(),
            (true, false) => self.attachment(code).is_some(),
            (false, true) => self.spare_method(code).is_some(),
            (false, false) => self.spare_attachment(code).is_some(),
        }
    }

    #[tactic(auto, using(crate::proofs::BoxLemmas::method_in_two))]
    fn method_fits(&self, code: u16, schema: &Schema, key: &Names) -> bool {
        if let Some(boxed) = self.method(code) {
            return boxed.fits(schema, key);
        }
        match self.spare_method(code) {
            Some(boxed) => boxed.fits(schema, key),
            None => false,
        }
    }

    #[tactic(auto, using(crate::proofs::BoxLemmas::rule_in_two))]
    fn rule_fits(&self, code: u16, schema: &Schema, desc: &Bytes) -> bool {
        if let Some(boxed) = self.attachment(code) {
            return boxed.fits(schema, desc);
        }
        match self.spare_attachment(code) {
            Some(boxed) => boxed.fits(schema, desc),
            None => false,
        }
    }

    #[tactic(auto, using(crate::proofs::BoxLemmas::method_in_two))]
    fn outlives(&self, method: u16) -> bool {
        if method < FIRST_FOREIGN {
            return method != TEMP;
        }
        if let Some(boxed) = self.method(method) {
            return boxed.durable();
        }
        match self.spare_method(method) {
            Some(boxed) => boxed.durable(),
            None => true,
        }
    }

    fn register(&mut self, method: bool, code: u16) -> Result<bool, AllocError> {
        Registry::register(self, method, code)
    }

    fn retire(&mut self, method: bool, code: u16) -> Result<bool, AllocError> {
        Registry::retire(self, method, code)
    }
}
