//! What parsing and printing mean, in the text's own words: laws over the definitions alone.
ghost use Rattle.std.specs.Prelude.{◌≡◌, ◌≢◌, ◌↔◌, ℕ, ◌<◌, List, [], ◌∷◌, ◌++◌, length, map, decimal, All, Ok, Err, Some, None};
ghost use Rattle.hex.specs.Hex.{encode_lower};
ghost use Rattle.tao_base.specs.Lines.{hex_line, words_line};
ghost use Rattle.tao_text.specs.declared.faults.TextFault.{TextFault};
ghost use Rattle.tao_text.specs.declared.faults.TextKind.{TextKind};
ghost use Rattle.tao_text.specs.declared.said.Said.{Said};
ghost use Rattle.tao_text.specs.declared.script.Script.{Script};
ghost use Rattle.tao_text.specs.declared.script.Twins.{Twins};
ghost use Rattle.tao_text.specs.declared.text.TextOf.{TextOf};
ghost use Rattle.tao_text.specs.Breaks.{IsFirstFault, IsNoText, IsSkipped};
ghost use Rattle.tao_text.specs.Forms.{line_said};
ghost use Rattle.tao_text.specs.Parts.{Item};
ghost use Rattle.tao_text.specs.Scripts.{reading, reading_of, twins_reading};
ghost use Rattle.tao_text.specs.Spelling.{IsHex, IsNumber, IsWord, Says, spelled, spelled_line};
ghost use Rattle.tao_text.specs.Texts.{FirstBreak, FirstBreakOf, IsOps, IsOpsText, IsScript, IsScriptText, IsStore, IsStoreText, IsTwinText, IsTwins};
ghost use Rattle.tao_text.specs.Values.{hex_of, number_of};
ghost use Rattle.tao_text.specs.Words.{lines, words};

/// The words of a line are separated by one or more spaces.
pub fn words_stand_between_spaces()
    ensures none { words [] ≡ [] }
    ensures one { (word : List ℕ) → 0 < length word → All (λ b. b ≢ 32) word → words word ≡ word ∷ [] }
    ensures two { (front rest : List ℕ) → words (front ++ 32 ∷ rest) ≡ words front ++ words rest }
{}

/// Each line of a text ends with byte 10. A last piece without it is a line too, if it isn't empty.
pub fn lines_end_with_a_byte()
    ensures none { lines [] ≡ [] }
    ensures one { (line : List ℕ) → 0 < length line → All (λ b. b ≢ 10) line → lines line ≡ line ∷ [] }
    ensures two { (line rest : List ℕ) → All (λ b. b ≢ 10) line → lines (line ++ 10 ∷ rest) ≡ line ∷ lines rest }
{}

/// A word is read as a Number exactly if it is the Number in decimal. Any other word gives the fault Number.
pub fn numbers_are_decimal()
    ensures read { (word : List ℕ) (n : ℕ) → (number_of word ≡ Ok n) ↔ IsNumber word n }
    ensures fault { (word : List ℕ) (kind : TextKind) → number_of word ≡ Err kind → kind ≡ TextKind.Number }
{}

/// A word is read as bytes exactly if it is their hex, in either case. Any other word gives the fault Hex.
pub fn values_are_hex()
    ensures read { (word bytes : List ℕ) → (hex_of word ≡ Ok bytes) ↔ IsHex word bytes }
    ensures fault { (word : List ℕ) (kind : TextKind) → hex_of word ≡ Err kind → kind ≡ TextKind.Hex }
{}

/// In a text of each kind, a printable line is read as what its words say, and skipped exactly if it is blank or a comment. Any other line
/// gives the fault with the smallest number among those that don't depend on earlier lines.
pub fn lines_are_spelled()
    ensures said { (text : TextOf) (line : List ℕ) (said : Said) → (line_said text line ≡ Ok (Some said)) ↔ ((¬ IsNoText line) × (¬ IsSkipped (words line)) × Says text (words line) said) }
    ensures skipped { (text : TextOf) (line : List ℕ) → (line_said text line ≡ Ok None) ↔ ((¬ IsNoText line) × IsSkipped (words line)) }
    ensures fault { (text : TextOf) (before : List Item) (line : List ℕ) (kind : TextKind) → line_said text line ≡ Err kind → IsFirstFault text before line kind }
{}

/// Reading a text gives the script that it is the text of, or else its first fault.
pub fn texts_are_read()
    ensures script { (bytes : List ℕ) (script : Script) → (reading bytes ≡ Ok script) ↔ IsScriptText bytes script }
    ensures first_break { (bytes : List ℕ) (fault : TextFault) → (reading bytes ≡ Err fault) ↔ FirstBreak bytes fault }
{}

/// The same for operation lists.
pub fn ops_are_read()
    ensures script { (bytes : List ℕ) (script : Script) → (reading_of TextOf.Ops bytes ≡ Ok script) ↔ IsOpsText bytes script }
    ensures first_break { (bytes : List ℕ) (fault : TextFault) → (reading_of TextOf.Ops bytes ≡ Err fault) ↔ FirstBreakOf TextOf.Ops bytes fault }
{}

/// The same for block files.
pub fn stores_are_read()
    ensures script { (bytes : List ℕ) (script : Script) → (reading_of TextOf.Store bytes ≡ Ok script) ↔ IsStoreText bytes script }
    ensures first_break { (bytes : List ℕ) (fault : TextFault) → (reading_of TextOf.Store bytes ≡ Err fault) ↔ FirstBreakOf TextOf.Store bytes fault }
{}

/// Reading a twin input gives the two plays that it is the text of, or else its first fault.
pub fn twins_are_read()
    ensures twins { (bytes : List ℕ) (twins : Twins) → (twins_reading bytes ≡ Ok twins) ↔ IsTwinText bytes twins }
    ensures first_break { (bytes : List ℕ) (fault : TextFault) → (twins_reading bytes ≡ Err fault) ↔ FirstBreakOf TextOf.Twin bytes fault }
{}

/// A script that was read is within all limits.
pub fn scripts_keep_limits()
    ensures { (bytes : List ℕ) (script : Script) → reading bytes ≡ Ok script → IsScript script }
{}

/// So are the other texts; a twin input has no more arrivals than a session.
pub fn others_keep_limits()
    ensures ops { (bytes : List ℕ) (script : Script) → reading_of TextOf.Ops bytes ≡ Ok script → IsOps script }
    ensures store { (bytes : List ℕ) (script : Script) → reading_of TextOf.Store bytes ≡ Ok script → IsStore script }
    ensures twins { (bytes : List ℕ) (twins : Twins) → twins_reading bytes ≡ Ok twins → IsTwins twins }
{}

/// Words joined by single spaces are read back as just these words, and are what printing writes.
pub fn printed_lines_are_spelled()
    ensures read { (ws : List (List ℕ)) → All IsWord ws → words (spelled ws) ≡ ws }
    ensures words { (word numbers : List ℕ) → words_line word numbers ≡ spelled_line (word ∷ map decimal numbers) }
    ensures hex { (word numbers value : List ℕ) → hex_line word numbers value ≡ spelled_line ((word ∷ map decimal numbers) ++ encode_lower value ∷ []) }
{}
