// What the texts of a Modal entity read as, and the parameters that they name.
ghost use Rattle.std.specs.Prelude.{◌≡◌, ◌++◌, IfOk, OnOk, Some, option_to_list};
ghost use Rattle.std.specs.List.{filter_map};
ghost use Rattle.pt_language.specs.Expr.{tree_of};
ghost use Rattle.pt_language.specs.Tree.{Tree};
ghost use Rattle.pt_scopes.specs.Texts.{IsRead, names_in};
ghost use Rattle.pt_inequalities.specs.ModalScopes.{IsReadIn};
ghost use Rattle.pt_inequalities.specs.Modals.{IsParsedAs};
ghost use Rattle.pt_charts.specs.Readable.{IsReadable};
ghost use Rattle.pt_machine.specs.Machines.{seen_token};
ghost use Rattle.pt_machines.specs.Sites.{scope_at};

use crate::site::Site;
use pt_expr_text::parse;
use pt_language::{Expr, ParseFault};
use pt_scopes::names_of;
use pt_value::{Text, Token};
use std::alloc::{AllocError, Global};

/// The tree that a readable text reads as.
fn read(alloc: Global, text: &str) -> Result<Expr, AllocError>
    requires { (t : Tree) × IsRead text.now t }
    ensures { IfOk result (λ e. IsParsedAs text.now (Some (tree_of e))) }
{
    match parse(alloc, text) {
        Ok(tree) => Ok(tree),
        Err(ParseFault::Memory) => Err(AllocError),
        Err(ParseFault::Syntax) => unreachable!(),
        Err(ParseFault::Deep) => unreachable!(),
    }
}

/// Adds the token that is seen under a name, if there is one.
fn add_token(
    alloc: Global,
    site: &Site,
    name: &Text,
    seen: &mut Vec<(Text, Token)>,
) -> Result<(), AllocError>
    ensures { OnOk result (seen.new.items ≡ seen.old.items ++ option_to_list (seen_token (scope_at site.now).around name.now)) }
{
    let key = name.as_str();
    match site.frames.seen(None, Some(site.number), key) {
        Some(token) => {
            let name = name.copy(alloc)?;
            let token = token.copy(alloc)?;
            seen.push((name, token))?;
            Ok(())
        }
        None => Ok(()),
    }
}

/// Adds the tokens that are seen under these names.
fn add_seen(
    alloc: Global,
    site: &Site,
    names: &[Text],
    seen: &mut Vec<(Text, Token)>,
) -> Result<(), AllocError>
    ensures { OnOk result (seen.new.items ≡ seen.old.items ++ filter_map (seen_token (scope_at site.now).around) names.now) }
{
    for name in names {
        add_token(alloc, site, name, seen)?;
    }
    Ok(())
}

/// The tree that a readable text reads as. The parameters that it names are added to those that are seen.
pub(crate) fn tree_in(
    alloc: Global,
    site: &Site,
    text: &str,
    seen: &mut Vec<(Text, Token)>,
) -> Result<Expr, AllocError>
    requires { IsReadable (scope_at site.now) text.now }
    ensures read { IfOk result (λ e. IsReadIn (scope_at site.now) text.now (tree_of e)) }
    ensures seen { IfOk result (λ e. seen.new.items ≡ seen.old.items ++ filter_map (seen_token (scope_at site.now).around) (names_in (tree_of e))) }
{
    let tree = read(alloc, text)?;
    let names = names_of(alloc, &tree)?;
    add_seen(alloc, site, &names, seen)?;
    Ok(tree)
}
