//! What the page of `check` has.

ghost use Rattle.std.specs.Prelude.{◌≡◌, Some, None};
ghost use Rattle.vab_device.specs.declared.fault.StartFault.{StartFault as Fault};
ghost use Rattle.vab_survey.specs.declared.survey.Survey.{Survey as SurveyOf};
ghost use Rattle.vab_look.specs.declared.form.Form.{Form as FormOf};
ghost use Rattle.vab_look.specs.declared.place.Place.{Place as PlaceOf};
ghost use Rattle.vab_look.specs.CheckText.{check_text, Has, fault_line, fine_line};

/// The first thing wrong with a disk stands on its page of `check`; where nothing is, each part is
/// said to be fine.
pub fn the_first_fault_is_told()
    ensures wrong { (form : FormOf) (s : SurveyOf) (f : Fault)
        → s.first ≡ Some f
        → Has (check_text form s) (fault_line form f) }
    ensures fine { (form : FormOf) (s : SurveyOf) (p : PlaceOf)
        → s.first ≡ None
        → Has (check_text form s) (fine_line form p) }
{}
