//! The fault Twice: whether the names that a line declares are new.
ghost use Rattle.std.specs.Prelude.{◌≡◌};
ghost use Rattle.std.specs.List.{list_all};
ghost use Rattle.vq_model.specs.Context.{is_taken};
ghost use Rattle.vq_model.specs.LineFaults.{is_new};
ghost use Rattle.vq_forms.specs.OpenWords.{opens};
ghost use Rattle.vq_script.specs.SaidLines.{Fits};

use crate::known::Known;
use vq_forms::is_declaration;
use vq_model::statement::LineForm;

/// Whether each name that a line declares is new: it declares one, its second word, or none.
pub fn has_new_names(known: &Known, form: LineForm, words: &[&[u8]]) -> bool
    requires { Fits form words.now }
    ensures { result ≡ list_all
        (is_new (is_taken known.now.buffers.items known.now.semaphores.items known.now.queues.items))
        (opens form words.now) }
{
    if !is_declaration(form) {
        return true;
    }
    let [_, name, ..] = words else {
        unreachable!();
    };
    !known.is_declared(name)
}
