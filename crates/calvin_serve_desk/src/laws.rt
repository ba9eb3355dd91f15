//! A journal is a script, and its epochs are answered part after part.
ghost use Rattle.std.specs.Prelude.{◌≡◌, ◌+◌, ◌++◌, ℕ, List, Ok, None, length};
ghost use Rattle.std.specs.FinMap.{empty};
ghost use Rattle.calvin_app.specs.Meaning.{Meaning};
ghost use Rattle.calvin_app.specs.Rows.{Rows};
ghost use Rattle.calvin_script.specs.Scripts.{Listed};
ghost use Rattle.calvin_script.specs.Reading.{and_then};
ghost use Rattle.calvin_serial.specs.Engine.{text_of};
ghost use Rattle.calvin_text.specs.Texts.{finished};
ghost use Rattle.calvin_serve_desk.specs.declared.setting.Setting.{Setting};
ghost use Rattle.calvin_serve_desk.specs.Epochs.{answers};

/// The epochs of a journal are answered as `serial` answers the script that lists them, for an application and with undeclared
/// sets of either kind.
pub fn answered_as_a_script<Args, Row, Reply>()
    ensures { (m : Meaning Args Row Reply) (show : Reply → List ℕ) (setting : Setting) (epochs : List (List (Listed Args)))
        → text_of m show setting.sets (record { partitions = setting.partitions; woven_from = None; epochs = epochs })
        ≡ and_then (answers m show setting 0 empty epochs) (λ a. Ok (a.1 ++ finished (length epochs))) }
{}

/// Epochs are answered one part after another: the later ones on the rows, and from the number, where the first ones end.
pub fn answered_in_two<Args, Row, Reply>()
    ensures { (m : Meaning Args Row Reply) (show : Reply → List ℕ) (setting : Setting) (e : ℕ) (rows : Rows Row) (first rest : List (List (Listed Args)))
        → answers m show setting e rows (first ++ rest)
        ≡ and_then (answers m show setting e rows first) (λ a. and_then (answers m show setting (e + length first) a.0 rest) (λ b. Ok (b.0, a.1 ++ b.1))) }
{}
