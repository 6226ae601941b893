ghost use Rattle.std.specs.Prelude.{◌≡◌, ◌∷◌, true, OnOk, IfOk, reverse};
ghost use Rattle.c_parse.specs.Machine.{wants, choose};
ghost use Rattle.c_parse.specs.Steps.{Unfolds, symbols_of};
ghost use Rattle.c_parse.specs.declared.form.Form.{Form};

use crate::choose_declaration::{
    choose_declaration, choose_initial, choose_list_initial, choose_more_declarators,
    choose_more_values, choose_next_value,
};
use crate::choose_expression::{
    choose_action, choose_arguments, choose_assign, choose_choice, choose_expr,
    choose_more_arguments, choose_operand, choose_operations, choose_primary, choose_subscript,
    choose_unary,
};
use crate::choose_external::{
    choose_ending, choose_external, choose_externals, choose_more_params, choose_param,
    choose_param_list, choose_param_name, choose_titled, choose_unstatic,
};
use crate::choose_statement::{
    choose_else_part, choose_for_first, choose_groups, choose_item, choose_items, choose_label,
    choose_labelled, choose_returned, choose_statement, choose_stepped, choose_tested,
};
use crate::choose_type::{
    choose_after_char, choose_after_int, choose_after_short, choose_after_short_int,
    choose_after_sign, choose_after_sign_int, choose_after_sign_short, choose_type_name,
};
use crate::class::Class;
use crate::form::{Form, Symbol, Wait};
use crate::no_memory::NoMemory;
use crate::waits::Waits;
use Symbol::{Sub, Token};

// The symbols are waited for, the first of them next.
pub fn want(waits: &mut Waits, symbols: &[Symbol]) -> Result<bool, NoMemory>
    ensures { IfOk result (λ done. (done ≡ true) × (reverse waits.new.stack.items ≡ wants symbols.now (reverse waits.old.stack.items))) }
{
    let mut left = symbols.len();
    while left > 0 {
        left -= 1;
        waits.push(Wait::Want(symbols[left]))?;
    }
    Ok(true)
}

/// The alternative of a form is waited for that the next token tells; false where there is none,
/// where it is told later, and where a part is judged.
pub fn choose(waits: &mut Waits, form: Form, look: Option<Class>) -> Result<bool, NoMemory>
    ensures { IfOk result (λ done. Unfolds (symbols_of (choose form look) form) done waits.old.stack.items waits.new.stack.items) }
{
    match form {
        Form::Program => want(waits, &[Sub(Form::Externals)]),
        Form::Externals => choose_externals(waits, look),
        Form::External => choose_external(waits, look),
        Form::Unstatic => choose_unstatic(waits, look),
        Form::Titled => choose_titled(waits, look),
        Form::Signature => Ok(false),
        Form::Ending(all) => choose_ending(waits, all, look),
        Form::Params(_) => Ok(false),
        Form::ParamList => choose_param_list(waits, look),
        Form::MoreParams => choose_more_params(waits, look),
        Form::Param => choose_param(waits, look),
        Form::ParamName => choose_param_name(waits, look),
        Form::Declarators => want(waits, &[Sub(Form::Declarator), Sub(Form::MoreDeclarators)]),
        Form::MoreDeclarators => choose_more_declarators(waits, look),
        Form::Declarator => want(waits, &[Token(Class::Name), Sub(Form::Initial)]),
        Form::Initial => choose_initial(waits, look),
        Form::ListInitial => choose_list_initial(waits, look),
        Form::MoreValues => choose_more_values(waits, look),
        Form::NextValue => choose_next_value(waits, look),
        Form::Block(within) => want(
            waits,
            &[
                Token(Class::OpenBrace),
                Sub(Form::Items(within)),
                Token(Class::CloseBrace),
            ],
        ),
        Form::Items(within) => choose_items(waits, within, look),
        Form::Item(within) => choose_item(waits, within, look),
        Form::Declaration => choose_declaration(waits, look),
        Form::Statement(within) => choose_statement(waits, within, look),
        Form::ElsePart(within) => choose_else_part(waits, within, look),
        Form::Returned => choose_returned(waits, look),
        Form::ForFirst => choose_for_first(waits, look),
        Form::Tested => choose_tested(waits, look),
        Form::Stepped => choose_stepped(waits, look),
        Form::Groups(within, ended) => choose_groups(waits, within, ended, look),
        Form::Group(_, _) => Ok(false),
        Form::Labelled(within) => choose_labelled(waits, within, look),
        Form::Label => choose_label(waits, look),
        Form::Action => choose_action(waits, look),
        Form::Target => want(waits, &[Token(Class::Name), Sub(Form::Subscript)]),
        Form::Subscript => choose_subscript(waits, look),
        Form::Subscripted => want(waits, &[Sub(Form::Expr), Token(Class::CloseIndex)]),
        Form::Assign => choose_assign(waits, look),
        Form::Expr => choose_expr(waits, look),
        Form::Choice => choose_choice(waits, look),
        Form::Chosen => want(
            waits,
            &[Sub(Form::Expr), Token(Class::Colon), Sub(Form::Expr)],
        ),
        Form::Binary => want(waits, &[Sub(Form::Unary), Sub(Form::Operations)]),
        Form::Operations => choose_operations(waits, look),
        Form::Unary => choose_unary(waits, look),
        Form::Operand => choose_operand(waits, look),
        Form::CastType => want(waits, &[Sub(Form::TypeName), Token(Class::Close)]),
        Form::Primary => choose_primary(waits, look),
        Form::Grouped => want(waits, &[Sub(Form::Expr), Token(Class::Close)]),
        Form::Passed => want(waits, &[Sub(Form::Arguments), Token(Class::Close)]),
        Form::Arguments => choose_arguments(waits, look),
        Form::MoreArguments => choose_more_arguments(waits, look),
        Form::TypeName => choose_type_name(waits, look),
        Form::AfterChar => choose_after_char(waits, look),
        Form::AfterSign => choose_after_sign(waits, look),
        Form::AfterShort => choose_after_short(waits, look),
        Form::AfterInt => choose_after_int(waits, look),
        Form::AfterSignShort => choose_after_sign_short(waits, look),
        Form::AfterSignInt => choose_after_sign_int(waits, look),
        Form::AfterShortInt => choose_after_short_int(waits, look),
    }
}
