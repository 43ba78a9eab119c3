ghost use Rattle.std.specs.Prelude.{◌≡◌, IfOk};
ghost use Rattle.pt_language.specs.Expr.{tree_of};
ghost use Rattle.pt_language.specs.Deep.{IsDeep};
ghost use Rattle.pt_expr_print.specs.Printed.{printed};
ghost use Rattle.pt_expr_print.specs.Readable.{IsReadable};

use crate::printed::print;
use pt_expr_text::parse;
use pt_language::{Expr, ParseFault};
use std::alloc::Global;

/// A tree by way of its printed text: the same tree, unless that text has too many bytes, brackets or operators to be read.
pub fn reread(alloc: Global, tree: &Expr) -> Result<Expr, ParseFault>
    requires readable { IsReadable (tree_of tree.now) }
    ensures same { IfOk result (λ again. tree_of again ≡ tree_of tree.now) }
    ensures deep { result ≡ Err ParseFault.Deep → IsDeep (printed (tree_of tree.now)) }
    ensures shallow { IfOk result (λ _. ¬ (IsDeep (printed (tree_of tree.now)))) }
    ensures syntax { ¬ (result ≡ Err ParseFault.Syntax) }
{
    let text = print(alloc, tree)?;
    parse(alloc, text.as_str())
}
