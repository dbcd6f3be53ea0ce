//! Boxes and their codes.

ghost use Rattle.std.specs.Prelude.{◌≡◌, ℕ};

use sb_drive::{Attachment, StorageMethod};

/// What bears a code.
pub trait Coded: Drop {
    ghost code_of: { Self → ℕ };

    fn own_code(&self) -> u16
        ensures { result ≡ code_of self.now };
}

impl Coded for Box<dyn StorageMethod> {
    ghost code_of = { λ b. ((StorageMethod-box b).method b.value).rules.code };

    fn own_code(&self) -> u16 {
        self.code()
    }
}

impl Coded for Box<dyn Attachment> {
    ghost code_of = { λ b. ((Attachment-box b).attachment b.value).rules.code };

    fn own_code(&self) -> u16 {
        self.code()
    }
}

pub fn lend_method(boxed: &Box<dyn StorageMethod>) -> &dyn StorageMethod
    ensures { (⟦<dyn StorageMethod as StorageMethod>⟧ result.now.0).method result.now.1
        ≡ (⟦<dyn StorageMethod as StorageMethod>⟧ boxed.now.vtable).method boxed.now.value }
{
    &**boxed
}

pub fn lend_attachment(boxed: &Box<dyn Attachment>) -> &dyn Attachment
    ensures { (⟦<dyn Attachment as Attachment>⟧ result.now.0).attachment result.now.1
        ≡ (⟦<dyn Attachment as Attachment>⟧ boxed.now.vtable).attachment boxed.now.value }
{
    &**boxed
}
