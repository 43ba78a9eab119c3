ghost use Rattle.std.specs.Prelude.{◌≡◌, IfOk, IfErr};
ghost use Rattle.pt_language.specs.Expr.{tree_of};
ghost use Rattle.pt_scopes.specs.Texts.{IsRead, IsReaderFault};
ghost use Rattle.pt_scopes.specs.TextFault.{IsTold};

use pt_document::Code;
use pt_expr_text::parse;
use pt_language::{Expr, ParseFault};
use pt_scopes::TextFault;
use std::alloc::Global;

/// The tree that a text reads as.
pub fn read(alloc: Global, text: &str) -> Result<Expr, TextFault>
    ensures ok { IfOk result (λ e. IsRead text.now (tree_of e)) }
    ensures told { IfErr result (IsTold (IsReaderFault text.now)) }
{
    match parse(alloc, text) {
        Ok(tree) => Ok(tree),
        Err(ParseFault::Syntax) => Err(TextFault::Refused(Code::ExprSyntax)),
        Err(ParseFault::Deep) => Err(TextFault::Refused(Code::Limit)),
        Err(ParseFault::Memory) => Err(TextFault::Memory),
    }
}
