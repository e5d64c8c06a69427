//! Resolution of what Put_Line writes (A.10.7).

ghost use Rattle.ada_resolve.specs.Look.{Looks, line_look, put_line_look};
ghost use Rattle.ada_resolve.specs.View.{stmt_in};

use crate::arguments::none_wanted;
use crate::fault::{NameFault, NameRule};
use crate::notes::Notes;
use crate::resolver::Resolver;
use crate::spots::expression_spot;
use ada_program::Spot;
use ada_program::program::{Stmt, TextNo};
use ada_tree::expressions::Argument;

impl<'t> Resolver<'t> {
    /// `Ada.Text_IO.Put_Line (..);` where a text that it writes has this number.
    #[tactic(auto, unfolding(crate::specs::Lines::put_line_found, crate::specs::Lines::put_line_remark))]
    pub(crate) fn put_line(
        &self,
        called: Spot,
        arguments: &[Argument<'t>],
        text: TextNo,
        notes: &mut Notes,
    ) -> Result<Option<Stmt>, NameFault>
        ensures { Looks stmt_in result notes (put_line_look self text.0 called arguments.now) }
    {
        let Some((argument, more)) = arguments.split_first() else {
            notes.note(called, NameRule::WrongType);
            return Ok(None);
        };
        let done = self.line(argument, text, notes)?;
        none_wanted(more, notes);
        self.arguments(more, notes)?;
        Ok(done)
    }

    /// What Put_Line writes: a text, or Integer'Image of a value.
    #[tactic(auto, using(std::proofs::lemmas::Grind::common_steps, ada_program::specs::Form::statement_rules))]
    fn line(
        &self,
        argument: &Argument<'t>,
        text: TextNo,
        notes: &mut Notes,
    ) -> Result<Option<Stmt>, NameFault>
        ensures { Looks stmt_in result notes (line_look self text.0 argument.now) }
    {
        match argument {
            Argument::Expression(value) => {
                notes.note(expression_spot(value), NameRule::WrongType);
                self.look_at(value, notes)?;
                Ok(None)
            }
            Argument::Text { .. } => Ok(Some(Stmt::PutText(text))),
            Argument::Attribute {
                prefix,
                attribute,
                value,
            } => {
                let value = self.image_value(*prefix, *attribute, value, notes)?;
                Ok(Some(Stmt::PutImage(value)))
            }
        }
    }
}
