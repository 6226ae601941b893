ghost use Rattle.std.specs.Prelude.{◌≡◌, ◌∷◌, ◌++◌, [], OnOk, IfOk, reverse, Some, None, true, false};
ghost use Rattle.c_parse.specs.Grammar.{make, shape_of, noded};
ghost use Rattle.c_parse.specs.Machine.{at, choose, first_of, frame, is_spliced, judged, late_symbols, of_group, of_params, operand_of_action, tell, turn, turn_read, turn_taken, turn_told, undecided, wants};
ghost use Rattle.c_parse.specs.Steps.{Finishes, Steps, Turns, class_wanted, symbols_of};
ghost use Rattle.c_parse.specs.Turning.{delayed_at, judged_at, judged_as, rule_in, is_levelled, as_word};
ghost use Rattle.c_parse.specs.declared.form.Delay.{Delay};
ghost use Rattle.c_parse.specs.declared.form.Form.{Form};
ghost use Rattle.c_parse.specs.declared.form.Symbol.{Symbol};
ghost use Rattle.c_parse.specs.declared.form.Wait.{Wait};

use crate::begins::begins_type;
use crate::choose::{choose, want};
use crate::class::Class;
use crate::endings::{ends_in_jump, have_names};
use crate::form::{Delay, Form, Late, Symbol, Wait, Within};
use crate::grouping::tree_of;
use crate::no_memory::NoMemory;
use crate::raw::{Raw, RawRule};
use crate::waits::Waits;
use Symbol::{Sub, Token};
use sqlite_items::Items;
use std::alloc::Global;

/// How deep a token may be nested.
pub const DEEPEST: usize = 64;

/// What the parser waits for and what it built, the innermost last.
#[derive(Drop)]
pub struct Machine {
    pub waits: Waits,
    pub builds: Vec<Items<Raw>>,
}

fn build(builds: &mut Vec<Items<Raw>>, parts: Items<Raw>) -> Result<(), NoMemory>
    ensures { OnOk result (reverse builds.new.items ≡ parts ∷ reverse builds.old.items) }
{
    match builds.push(parts) {
        Ok(()) => Ok(()),
        Err(_) => Err(NoMemory),
    }
}

fn add(parts: &mut Items<Raw>, part: Raw) -> Result<(), NoMemory>
    ensures { OnOk result (parts.new ≡ parts.old ++ part ∷ []) }
{
    match parts.push(part) {
        Ok(()) => Ok(()),
        Err(_) => Err(NoMemory),
    }
}

fn append(parts: &mut Items<Raw>, more: Items<Raw>) -> Result<(), NoMemory>
    ensures { OnOk result (parts.new ≡ parts.old ++ more) }
{
    match parts.append(more) {
        Ok(()) => Ok(()),
        Err(_) => Err(NoMemory),
    }
}

fn is_same(first: Class, second: Class) -> bool
    ensures same { result ≡ true → first ≡ second }
    ensures other { result ≡ false → first ≡ second → ⊥ }
{
    first == second
}

// The class of the token that is waited for.
fn class_wanted(wait: Wait) -> Option<Class>
    ensures { result ≡ class_wanted wait }
{
    match wait {
        Wait::Want(Token(class)) => Some(class),
        _ => None,
    }
}

fn rule_of(form: Form) -> Option<RawRule>
    ensures { result ≡ rule_in (shape_of form) }
{
    match form {
        Form::Program => Some(RawRule::Program),
        Form::External => Some(RawRule::External),
        Form::Params(_) => Some(RawRule::Params),
        Form::Param => Some(RawRule::Param),
        Form::Declarator => Some(RawRule::Declarator),
        Form::Block(_) => Some(RawRule::Block),
        Form::Item(_) => Some(RawRule::Item),
        Form::Declaration => Some(RawRule::Declaration),
        Form::Statement(_) => Some(RawRule::Statement),
        Form::Group(_, _) => Some(RawRule::Group),
        Form::Label => Some(RawRule::Label),
        Form::Action => Some(RawRule::Action),
        Form::Target => Some(RawRule::Target),
        Form::Assign => Some(RawRule::Assign),
        Form::Expr => Some(RawRule::Expr),
        Form::Unary => Some(RawRule::Unary),
        Form::Primary => Some(RawRule::Primary),
        Form::TypeName => Some(RawRule::TypeName),
        _ => None,
    }
}

fn is_spliced(form: Form) -> bool
    ensures { result ≡ is_spliced form }
{
    match form {
        Form::Program
        | Form::External
        | Form::Params(_)
        | Form::Param
        | Form::Declarator
        | Form::Block(_)
        | Form::Item(_)
        | Form::Declaration
        | Form::Statement(_)
        | Form::Group(_, _)
        | Form::Label
        | Form::Action
        | Form::Target
        | Form::Assign
        | Form::Expr
        | Form::Binary
        | Form::Unary
        | Form::Primary
        | Form::TypeName
        | Form::Operand
        | Form::Grouped
        | Form::Subscripted
        | Form::Passed
        | Form::CastType
        | Form::Chosen => false,
        _ => true,
    }
}

fn is_levelled(form: Form) -> bool
    ensures { result ≡ is_levelled (shape_of form) }
{
    matches!(form, Form::Binary)
}

// A form ends: what its parts stand for goes to the list round it.
fn add_made(
    alloc: Global,
    form: Form,
    round: &mut Items<Raw>,
    parts: Items<Raw>,
) -> Result<(), NoMemory>
    ensures { OnOk result (round.new ≡ round.old ++ make form parts) }
{
    match rule_of(form) {
        Some(rule) => add(round, Raw::Node { rule, parts }),
        None => {
            if is_levelled(form) {
                let tree = tree_of(alloc, parts)?;
                add(round, tree)
            } else {
                append(round, parts)
            }
        },
    }
}

fn delayed_at(form: Form, look: Option<Class>) -> Option<Delay>
    ensures { result ≡ delayed_at form look }
{
    match (form, look) {
        (Form::Unary, Some(Class::Open)) => Some(Delay::Opened),
        (Form::Primary, Some(Class::Name)) => Some(Delay::Called),
        (Form::Titled, Some(Class::Name)) => Some(Delay::Named),
        (Form::Action, Some(Class::Name)) => Some(Delay::Begun),
        _ => None,
    }
}

fn judged_at(form: Form, look: Option<Class>) -> Option<Late>
    ensures { result ≡ judged_at form look }
{
    match (form, look) {
        (Form::Signature, _) => Some(Late::Params),
        (Form::Groups(within, true), Some(Class::Case)) => Some(Late::Group(within)),
        (Form::Groups(within, true), Some(Class::Default)) => Some(Late::Group(within)),
        _ => None,
    }
}

// A form that has begun: these symbols are still to come in it.
fn enter(waits: &mut Waits, form: Form, rest: &[Symbol]) -> Result<(), NoMemory>
    ensures { OnOk result (reverse waits.new.stack.items ≡ wants rest.now (Wait.Close form ∷ reverse waits.old.stack.items)) }
{
    waits.push(Wait::Close(form))?;
    want(waits, rest)?;
    Ok(())
}

impl Machine {
    /// It waits for a program.
    pub fn new(alloc: Global) -> Result<Machine, NoMemory>
        ensures { IfOk result (λ m. (reverse m.waits.stack.items ≡ Wait.Want (Symbol.Sub Form.Program) ∷ []) × (reverse m.builds.items ≡ [] ∷ [])) }
    {
        let mut waits = Waits::new(alloc);
        waits.push(Wait::Want(Sub(Form::Program)))?;
        let mut builds = Vec::new(alloc);
        build(&mut builds, Items::new(alloc))?;
        Ok(Machine { waits, builds })
    }

    // A form begins with the alternative that the token tells.
    fn begin(&mut self, alloc: Global, form: Form, look: Option<Class>) -> Result<bool, NoMemory>
        ensures { IfOk result (λ done. Turns (turn_taken (symbols_of (choose form look) form) form (reverse self.old.waits.stack.items) (reverse self.old.builds.items)) done self.new.waits.stack.items self.new.builds.items) }
    {
        if is_spliced(form) {
            choose(&mut self.waits, form, look)
        } else {
            self.waits.push(Wait::Close(form))?;
            build(&mut self.builds, Items::new(alloc))?;
            choose(&mut self.waits, form, look)
        }
    }

    // What is told later is read into a list of its own.
    fn put_off(&mut self, alloc: Global, delay: Delay) -> Result<bool, NoMemory>
        ensures { IfOk result (λ done. Turns (Some (at (Wait.Want (first_of delay) ∷ undecided delay ∷ reverse self.old.waits.stack.items) ([] ∷ reverse self.old.builds.items))) done self.new.waits.stack.items self.new.builds.items) }
    {
        self.waits.push(Wait::Choose(delay))?;
        build(&mut self.builds, Items::new(alloc))?;
        match delay {
            Delay::Opened => want(&mut self.waits, &[Token(Class::Open)]),
            Delay::Indexed => want(&mut self.waits, &[Sub(Form::Subscript)]),
            _ => want(&mut self.waits, &[Token(Class::Name)]),
        }
    }

    // What is judged when it is read gets a list of its own.
    fn put_to_judge(&mut self, alloc: Global, late: Late) -> Result<bool, NoMemory>
        ensures { IfOk result (λ done. Turns (Some (at (wants (late_symbols late) (judged late ∷ reverse self.old.waits.stack.items)) ([] ∷ reverse self.old.builds.items))) done self.new.waits.stack.items self.new.builds.items) }
    {
        self.waits.push(Wait::Judge(late))?;
        build(&mut self.builds, Items::new(alloc))?;
        match late {
            Late::Params => want(&mut self.waits, &[Sub(Form::ParamList)]),
            Late::Group(within) => want(
                &mut self.waits,
                &[Sub(Form::Label), Sub(Form::Labelled(within))],
            ),
        }
    }

    fn turn_form(
        &mut self,
        alloc: Global,
        form: Form,
        look: Option<Class>,
    ) -> Result<bool, NoMemory>
        ensures { IfOk result (λ done. Turns (turn (Wait.Want (Symbol.Sub form) ∷ reverse self.old.waits.stack.items) (reverse self.old.builds.items) look) done self.new.waits.stack.items self.new.builds.items) }
    {
        match delayed_at(form, look) {
            Some(delay) => self.put_off(alloc, delay),
            None => match judged_at(form, look) {
                Some(late) => self.put_to_judge(alloc, late),
                None => self.begin(alloc, form, look),
            },
        }
    }

    fn close(&mut self, alloc: Global, form: Form) -> Result<bool, NoMemory>
        ensures { IfOk result (λ done. Turns (turn (Wait.Close form ∷ reverse self.old.waits.stack.items) (reverse self.old.builds.items) None) done self.new.waits.stack.items self.new.builds.items) }
    {
        let Some(parts) = self.builds.pop() else {
            return Ok(false);
        };
        let Some(mut round) = self.builds.pop() else {
            return Ok(false);
        };
        add_made(alloc, form, &mut round, parts)?;
        build(&mut self.builds, round)?;
        Ok(true)
    }

    // A ( begins a cast where a type comes, else an expression in parentheses.
    fn turn_opened(
        &mut self,
        alloc: Global,
        parts: Items<Raw>,
        look: Option<Class>,
    ) -> Result<bool, NoMemory>
        ensures { IfOk result (λ done. Turns (turn_told (tell Delay.Opened look) Delay.Opened (reverse self.old.waits.stack.items) parts (reverse self.old.builds.items)) done self.new.waits.stack.items self.new.builds.items) }
    {
        if begins_type(look) {
            build(&mut self.builds, parts)?;
            enter(
                &mut self.waits,
                Form::Unary,
                &[Sub(Form::CastType), Sub(Form::Operand)],
            )?;
            Ok(true)
        } else {
            build(&mut self.builds, Items::new(alloc))?;
            build(&mut self.builds, parts)?;
            enter(&mut self.waits, Form::Unary, &[])?;
            enter(&mut self.waits, Form::Primary, &[Sub(Form::Grouped)])?;
            Ok(true)
        }
    }

    // A name is called where a ( comes, else it is a variable.
    fn turn_called(&mut self, parts: Items<Raw>, look: Option<Class>) -> Result<bool, NoMemory>
        ensures { IfOk result (λ done. Turns (turn_told (tell Delay.Called look) Delay.Called (reverse self.old.waits.stack.items) parts (reverse self.old.builds.items)) done self.new.waits.stack.items self.new.builds.items) }
    {
        build(&mut self.builds, parts)?;
        match look {
            Some(Class::Open) => enter(
                &mut self.waits,
                Form::Primary,
                &[Token(Class::Open), Sub(Form::Passed)],
            )?,
            _ => enter(&mut self.waits, Form::Primary, &[Sub(Form::Subscript)])?,
        }
        Ok(true)
    }

    // A name behind a type is a function's where a ( comes, else a variable's.
    fn turn_named(
        &mut self,
        alloc: Global,
        parts: Items<Raw>,
        look: Option<Class>,
    ) -> Result<bool, NoMemory>
        ensures { IfOk result (λ done. Turns (turn_told (tell Delay.Named look) Delay.Named (reverse self.old.waits.stack.items) parts (reverse self.old.builds.items)) done self.new.waits.stack.items self.new.builds.items) }
    {
        match look {
            Some(Class::Open) => {
                build(&mut self.builds, parts)?;
                enter(
                    &mut self.waits,
                    Form::Titled,
                    &[Token(Class::Open), Sub(Form::Signature)],
                )?;
                Ok(true)
            }
            _ => {
                build(&mut self.builds, Items::new(alloc))?;
                build(&mut self.builds, Items::new(alloc))?;
                build(&mut self.builds, parts)?;
                enter(&mut self.waits, Form::Titled, &[Token(Class::Semicolon)])?;
                enter(
                    &mut self.waits,
                    Form::Declarators,
                    &[Sub(Form::MoreDeclarators)],
                )?;
                enter(&mut self.waits, Form::Declarator, &[Sub(Form::Initial)])?;
                Ok(true)
            }
        }
    }

    // What was read is the target of an action that goes on with these symbols.
    fn target(
        &mut self,
        alloc: Global,
        parts: Items<Raw>,
        rest: &[Symbol],
    ) -> Result<bool, NoMemory>
        ensures { IfOk result (λ done. Turns (turn_read (Some (frame Form.Target [] ∷ frame Form.Action rest.now ∷ [])) (reverse self.old.waits.stack.items) parts (reverse self.old.builds.items)) done self.new.waits.stack.items self.new.builds.items) }
    {
        build(&mut self.builds, Items::new(alloc))?;
        build(&mut self.builds, parts)?;
        enter(&mut self.waits, Form::Action, rest)?;
        enter(&mut self.waits, Form::Target, &[])?;
        Ok(true)
    }

    // It is the operand with which an action's expression begins.
    fn operand(
        &mut self,
        alloc: Global,
        parts: Items<Raw>,
        rest: &[Symbol],
    ) -> Result<bool, NoMemory>
        ensures { IfOk result (λ done. Turns (turn_read (Some (frame Form.Primary rest.now ∷ operand_of_action)) (reverse self.old.waits.stack.items) parts (reverse self.old.builds.items)) done self.new.waits.stack.items self.new.builds.items) }
    {
        build(&mut self.builds, Items::new(alloc))?;
        build(&mut self.builds, Items::new(alloc))?;
        build(&mut self.builds, Items::new(alloc))?;
        build(&mut self.builds, Items::new(alloc))?;
        build(&mut self.builds, parts)?;
        enter(&mut self.waits, Form::Action, &[])?;
        enter(&mut self.waits, Form::Expr, &[Sub(Form::Choice)])?;
        enter(&mut self.waits, Form::Binary, &[Sub(Form::Operations)])?;
        enter(&mut self.waits, Form::Unary, &[])?;
        enter(&mut self.waits, Form::Primary, rest)?;
        Ok(true)
    }

    // A name with which an action begins is called where a ( comes, else its index is read first.
    fn turn_begun(
        &mut self,
        alloc: Global,
        parts: Items<Raw>,
        look: Option<Class>,
    ) -> Result<bool, NoMemory>
        ensures { IfOk result (λ done. Turns (turn_told (tell Delay.Begun look) Delay.Begun (reverse self.old.waits.stack.items) parts (reverse self.old.builds.items)) done self.new.waits.stack.items self.new.builds.items) }
    {
        match look {
            Some(Class::Open) => self.operand(
                alloc,
                parts,
                &[Token(Class::Open), Sub(Form::Passed)],
            ),
            _ => {
                build(&mut self.builds, parts)?;
                self.waits.push(Wait::Choose(Delay::Indexed))?;
                want(&mut self.waits, &[Sub(Form::Subscript)])
            }
        }
    }

    // Behind its index it is a target where an assignment or ++ comes, else an operand.
    fn turn_indexed(
        &mut self,
        alloc: Global,
        parts: Items<Raw>,
        look: Option<Class>,
    ) -> Result<bool, NoMemory>
        ensures { IfOk result (λ done. Turns (turn_told (tell Delay.Indexed look) Delay.Indexed (reverse self.old.waits.stack.items) parts (reverse self.old.builds.items)) done self.new.waits.stack.items self.new.builds.items) }
    {
        match look {
            Some(Class::Equals | Class::Compound) => self.target(
                alloc,
                parts,
                &[Sub(Form::Assign), Sub(Form::Expr)],
            ),
            Some(Class::Increment) => self.target(alloc, parts, &[Token(Class::Increment)]),
            _ => self.operand(alloc, parts, &[]),
        }
    }

    fn turn_undecided(
        &mut self,
        alloc: Global,
        delay: Delay,
        look: Option<Class>,
    ) -> Result<bool, NoMemory>
        ensures { IfOk result (λ done. Turns (turn (undecided delay ∷ reverse self.old.waits.stack.items) (reverse self.old.builds.items) look) done self.new.waits.stack.items self.new.builds.items) }
    {
        let Some(parts) = self.builds.pop() else {
            return Ok(false);
        };
        match delay {
            Delay::Opened => self.turn_opened(alloc, parts, look),
            Delay::Called => self.turn_called(parts, look),
            Delay::Named => self.turn_named(alloc, parts, look),
            Delay::Begun => self.turn_begun(alloc, parts, look),
            Delay::Indexed => self.turn_indexed(alloc, parts, look),
        }
    }

    // What may follow parameters depends on whether all have names.
    fn judge_params(&mut self, round: Items<Raw>, parts: Items<Raw>) -> Result<bool, NoMemory>
        ensures { IfOk result (λ done. Turns (judged_as of_params (reverse self.old.waits.stack.items) parts round (reverse self.old.builds.items)) done self.new.waits.stack.items self.new.builds.items) }
    {
        let named = have_names(parts.as_slice());
        let mut round = round;
        add(
            &mut round,
            Raw::Node {
                rule: RawRule::Params,
                parts,
            },
        )?;
        build(&mut self.builds, round)?;
        want(
            &mut self.waits,
            &[Token(Class::Close), Sub(Form::Ending(named))],
        )
    }

    // What may follow a group depends on whether it ends in a jump.
    fn judge_group(
        &mut self,
        within: Within,
        round: Items<Raw>,
        parts: Items<Raw>,
    ) -> Result<bool, NoMemory>
        ensures { IfOk result (λ done. Turns (judged_as (of_group within) (reverse self.old.waits.stack.items) parts round (reverse self.old.builds.items)) done self.new.waits.stack.items self.new.builds.items) }
    {
        let ended = ends_in_jump(parts.as_slice());
        let mut round = round;
        add(
            &mut round,
            Raw::Node {
                rule: RawRule::Group,
                parts,
            },
        )?;
        build(&mut self.builds, round)?;
        want(&mut self.waits, &[Sub(Form::Groups(within, ended))])
    }

    fn turn_judged(&mut self, late: Late) -> Result<bool, NoMemory>
        ensures { IfOk result (λ done. Turns (turn (judged late ∷ reverse self.old.waits.stack.items) (reverse self.old.builds.items) None) done self.new.waits.stack.items self.new.builds.items) }
    {
        let Some(parts) = self.builds.pop() else {
            return Ok(false);
        };
        let Some(round) = self.builds.pop() else {
            return Ok(false);
        };
        match late {
            Late::Params => self.judge_params(round, parts),
            Late::Group(within) => self.judge_group(within, round, parts),
        }
    }

    // What is done for this wait before the token is read; false where nothing is.
    fn turn(&mut self, alloc: Global, wait: Wait, look: Option<Class>) -> Result<bool, NoMemory>
        ensures { IfOk result (λ done. Turns (turn (wait ∷ reverse self.old.waits.stack.items) (reverse self.old.builds.items) look) done self.new.waits.stack.items self.new.builds.items) }
    {
        match wait {
            Wait::Want(Token(_)) => Ok(false),
            Wait::Want(Sub(form)) => self.turn_form(alloc, form, look),
            Wait::Close(form) => self.close(alloc, form),
            Wait::Choose(delay) => self.turn_undecided(alloc, delay, look),
            Wait::Judge(late) => self.turn_judged(late),
        }
    }

    // The token is read, if it is of the class that is waited for and not nested too deep; else how deep it would be.
    fn shift(&mut self, wanted: Class, class: Class, leaf: Raw) -> Result<Option<usize>, NoMemory>
        ensures { IfOk result (λ told. Steps told (as_word class leaf) (Wait.Want (Symbol.Token wanted) ∷ reverse self.old.waits.stack.items) (reverse self.old.builds.items) (reverse self.new.waits.stack.items) (reverse self.new.builds.items)) }
    {
        let depth = self.waits.depth;
        let fits = is_same(class, wanted);
        if !fits {
            return Ok(Some(depth));
        }
        let too_deep = depth > DEEPEST;
        if too_deep {
            return Ok(Some(depth));
        }
        let Some(mut top) = self.builds.pop() else {
            return Ok(Some(depth));
        };
        add(&mut top, leaf)?;
        build(&mut self.builds, top)?;
        Ok(None)
    }

    /// The token is read; or no text of the grammar goes on with it, or it is nested too deep: then the answer is how many
    /// forms that nest are open where it is refused.
    pub fn step(
        &mut self,
        alloc: Global,
        class: Class,
        leaf: Raw,
    ) -> Result<Option<usize>, NoMemory>
        ensures { IfOk result (λ told. Steps told (as_word class leaf) (reverse self.old.waits.stack.items) (reverse self.old.builds.items) (reverse self.new.waits.stack.items) (reverse self.new.builds.items)) }
    {
        let mut depth = self.waits.depth;
        'turns: while let Some(wait) = self.waits.pop() {
            match class_wanted(wait) {
                Some(wanted) => {
                    let read = self.shift(wanted, class, leaf)?;
                    return Ok(read);
                }
                None => {
                    let turned = self.turn(alloc, wait, Some(class))?;
                    if turned {
                        depth = self.waits.depth;
                    } else {
                        return Ok(Some(depth));
                    }
                }
            }
        }
        Ok(Some(depth))
    }

    /// What is done at the end of the tokens; false where something is still waited for.
    pub fn finish(&mut self, alloc: Global) -> Result<bool, NoMemory>
        ensures { IfOk result (λ done. Finishes done (reverse self.old.waits.stack.items) (reverse self.old.builds.items) (reverse self.new.waits.stack.items) (reverse self.new.builds.items)) }
    {
        'turns: while let Some(wait) = self.waits.pop() {
            match class_wanted(wait) {
                Some(_wanted) => return Ok(false),
                None => {
                    let turned = self.turn(alloc, wait, None)?;
                    if turned {} else {
                        return Ok(false);
                    }
                }
            }
        }
        Ok(true)
    }
}
