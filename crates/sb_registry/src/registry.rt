//! The registry.

ghost use Rattle.std.specs.Prelude.{◌≡◌, Some, None, option_map, IfOk, IfErr, OnErr};
ghost use Rattle.sb_registry.specs.Boxes.{meanings, repeated_in, method_of, attachment_of, AreSame};
ghost use Rattle.sb_registry.specs.Boxes.{Registered, Retired};

use crate::boxes::{lend_attachment, lend_method};
use crate::coded::{first_repeated, move_over, place_of};
use crate::{Extensions, Meant};
use sb_drive::{Attachment, StorageMethod};
use std::alloc::AllocError;

/// Boxes, live and spare. No code stands twice among the storage methods, and none twice among the attachments.
#[derive(Drop)]
pub struct Registry {
    exts: Extensions,
}

impl Meant for Registry {
    ghost meant = { λ r. meanings (λ b. (StorageMethod-box b).method b.value) (λ b. (Attachment-box b).attachment b.value) r.exts };
}

impl Registry {
    /// Refused where a code repeats among the storage methods or among the attachments, live or spare. The boxes come back
    /// with the first code that repeats: storage methods first, live ones before spare ones.
    pub fn take(exts: Extensions) -> Result<Registry, (u16, Extensions)>
        ensures same { IfOk result (λ r. AreSame exts r.exts) }
        ensures meant { IfOk result (λ r. ⟦<Registry as Meant>⟧.meant r ≡ ⟦<Extensions as Meant>⟧.meant exts) }
        ensures ok { IfOk result (λ r. repeated_in (⟦<Registry as Meant>⟧.meant r) ≡ None) }
        ensures err { IfErr result (λ e. repeated_in (⟦<Extensions as Meant>⟧.meant exts) ≡ Some e.0) }
        ensures back { IfErr result (λ e. AreSame exts e.1) }
    {
        match repeated_code(&exts) {
            Some(code) => Err((code, exts)),
            None => Ok(Registry { exts }),
        }
    }

    /// The live storage method of this code.
    pub fn method(&self, code: u16) -> Option<&dyn StorageMethod>
        ensures { option_map (λ m. (⟦<dyn StorageMethod as StorageMethod>⟧ m.now.0).method m.now.1) result
            ≡ method_of code (⟦<Registry as Meant>⟧.meant self.now).methods }
    {
        let i = place_of(&self.exts.methods, code)?;
        Some(lend_method(&self.exts.methods[i]))
    }

    /// The live attachment of this code.
    pub fn attachment(&self, code: u16) -> Option<&dyn Attachment>
        ensures { option_map (λ a. (⟦<dyn Attachment as Attachment>⟧ a.now.0).attachment a.now.1) result
            ≡ attachment_of code (⟦<Registry as Meant>⟧.meant self.now).attachments }
    {
        let i = place_of(&self.exts.attachments, code)?;
        Some(lend_attachment(&self.exts.attachments[i]))
    }

    /// The spare storage method of this code.
    pub fn spare_method(&self, code: u16) -> Option<&dyn StorageMethod>
        ensures { option_map (λ m. (⟦<dyn StorageMethod as StorageMethod>⟧ m.now.0).method m.now.1) result
            ≡ method_of code (⟦<Registry as Meant>⟧.meant self.now).spare_methods }
    {
        let i = place_of(&self.exts.spare_methods, code)?;
        Some(lend_method(&self.exts.spare_methods[i]))
    }

    /// The spare attachment of this code.
    pub fn spare_attachment(&self, code: u16) -> Option<&dyn Attachment>
        ensures { option_map (λ a. (⟦<dyn Attachment as Attachment>⟧ a.now.0).attachment a.now.1) result
            ≡ attachment_of code (⟦<Registry as Meant>⟧.meant self.now).spare_attachments }
    {
        let i = place_of(&self.exts.spare_attachments, code)?;
        Some(lend_attachment(&self.exts.spare_attachments[i]))
    }

    /// Moves the spare box of this code to the live ones: a storage method or an attachment. False where none is
    /// spare. Where memory runs out all stays as it was.
    pub fn register(&mut self, method: bool, code: u16) -> Result<bool, AllocError>
        ensures ok { IfOk result (λ moved. Registered (λ i. (⟦<dyn StorageMethod as StorageMethod>⟧ i).method)
            (λ j. (⟦<dyn Attachment as Attachment>⟧ j).attachment)
            method code moved self.old.exts self.new.exts) }
        ensures same { OnErr result (AreSame self.old.exts self.new.exts) }
        ensures err { OnErr result (⟦<Registry as Meant>⟧.meant self.new ≡ ⟦<Registry as Meant>⟧.meant self.old) }
    {
        if method {
            move_over(&mut self.exts.spare_methods, &mut self.exts.methods, code)
        } else {
            move_over(
                &mut self.exts.spare_attachments,
                &mut self.exts.attachments,
                code,
            )
        }
    }

    /// Moves the live box of this code to the spare ones. False where none is live. Where memory runs out all stays
    /// as it was.
    pub fn retire(&mut self, method: bool, code: u16) -> Result<bool, AllocError>
        ensures ok { IfOk result (λ moved. Retired (λ i. (⟦<dyn StorageMethod as StorageMethod>⟧ i).method)
            (λ j. (⟦<dyn Attachment as Attachment>⟧ j).attachment)
            method code moved self.old.exts self.new.exts) }
        ensures same { OnErr result (AreSame self.old.exts self.new.exts) }
        ensures err { OnErr result (⟦<Registry as Meant>⟧.meant self.new ≡ ⟦<Registry as Meant>⟧.meant self.old) }
    {
        if method {
            move_over(&mut self.exts.methods, &mut self.exts.spare_methods, code)
        } else {
            move_over(
                &mut self.exts.attachments,
                &mut self.exts.spare_attachments,
                code,
            )
        }
    }

    /// All boxes.
    pub fn give_back(self) -> Extensions
        ensures same { AreSame self.exts result }
        ensures meant { ⟦<Extensions as Meant>⟧.meant result ≡ ⟦<Registry as Meant>⟧.meant self }
    {
        let Registry { exts } = self;
        exts
    }
}

/// The first code that repeats among boxes of a kind.
fn repeated_code(exts: &Extensions) -> Option<u16>
    ensures { result ≡ repeated_in (⟦<Extensions as Meant>⟧.meant exts.now) }
{
    match first_repeated(&exts.methods, &exts.spare_methods) {
        Some(code) => Some(code),
        None => first_repeated(&exts.attachments, &exts.spare_attachments),
    }
}
