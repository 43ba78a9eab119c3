ghost use Rattle.std.specs.Prelude.{◌≡◌, IfOk, IfErr};
ghost use Rattle.pt_document.specs.declared.refusal.DocFault.TheVariants.{Memory};

use pt_document::DocFault;

/// A number of the net. One that doesn't fit is told as want of memory: a document has fewer of each kind.
pub fn number(n: usize) -> Result<u32, DocFault>
    ensures ok { IfOk result (λ m. m ≡ n) }
    ensures err { IfErr result (λ e. e ≡ Memory) }
{
    u32::try_from(n).map_err(|_| DocFault::Memory)
}
