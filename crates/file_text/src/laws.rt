//! What a line is that is written folded: one text, short, and read again the line. What a joined file is split into.

ghost use Rattle.std.specs.Prelude.{◌≡◌, ◌≤◌, ◌++◌, ℕ, false, List, [], ◌∷◌, length, map, Some, None, Ok};
ghost use Rattle.std.specs.List.{All, IsDistinct, flat_map};
ghost use Rattle.std.specs.Str.{IsUtf8, bytes_eq};
ghost use Rattle.std.specs.Str.Lines.{lines};
ghost use Rattle.item_text.specs.Components.{Before, placed};
ghost use Rattle.item_text.specs.Items.{ItemValue, item_of, uid_among, fingerprint};
ghost use Rattle.item_text.specs.Lines.{Line, continues, logical_lines};
ghost use Rattle.file_text.specs.Folds.{IsFolded};
ghost use Rattle.file_text.specs.Unfolds.{line_texts, texts_behind, HasNoFeed, HasNoMark, IsLine, AreLines};
ghost use Rattle.file_text.specs.Joins.{item_marks, join};
ghost use Rattle.file_text.specs.RoundTrips.{AreItems, in_file_order, idents, SplitsLike};
ghost use Rattle.file_text.specs.Marks.{refusal_from, marks_from, mark_texts};
ghost use Rattle.file_text.specs.Written.{folded, written};

/// A line is folded in one way.
pub fn folded_lines_are_unique()
    ensures { (line x y : List ℕ) → IsFolded line x → IsFolded line y → x ≡ y }
{}

/// A line that is folded is read as that line, alone, and before and behind others. Only what begins with a space or a tab continues it.
pub fn folded_lines_unfold()
    ensures alone { (line bytes : List ℕ) → IsFolded line bytes → HasNoFeed line → HasNoMark line → line_texts bytes ≡ line ∷ [] }
    ensures in_front { (line bytes rest : List ℕ) → IsFolded line bytes → HasNoFeed line → HasNoMark line → continues rest ≡ false → line_texts (bytes ++ rest) ≡ line ∷ texts_behind rest }
    ensures behind { (line bytes rest : List ℕ) → IsFolded line bytes → HasNoFeed line → continues rest ≡ false → texts_behind (bytes ++ rest) ≡ line ∷ texts_behind rest }
    ensures begins { (line bytes rest : List ℕ) → IsFolded line bytes → continues line ≡ false → continues (bytes ++ rest) ≡ false }
{}

/// Each physical line of a line that is folded has at most 75 bytes, also before others that have no more.
pub fn folded_lines_are_short()
    ensures alone { (line bytes : List ℕ) → IsFolded line bytes → All (λ (physical : List ℕ). length physical ≤ 75) (lines bytes) }
    ensures in_front { (line bytes rest : List ℕ) → IsFolded line bytes → All (λ (physical : List ℕ). length physical ≤ 75) (lines rest) → All (λ (physical : List ℕ). length physical ≤ 75) (lines (bytes ++ rest)) }
{}

/// Lines of UTF-8 without a line feed, none of which begins with a space or a tab, are read again as they were where they are written
/// folded, one behind another, and the first begins with no byte order mark.
pub fn written_lines_are_read()
    ensures folded { (line : List ℕ) → IsUtf8 line → IsFolded line (folded line) }
    ensures read { (line : List ℕ) (rest : List (List ℕ)) → HasNoMark line → All IsLine (line ∷ rest) → line_texts (flat_map folded (line ∷ rest)) ≡ line ∷ rest }
{}

/// The text of an item has no refusal as a file.
pub fn items_are_files()
    ensures { (count : ℕ) (text : List ℕ) (item : ItemValue) → item_of text ≡ Some item → refusal_from count Before (logical_lines text) ≡ None }
{}

/// Lines tell the UID and the version of an item by their trimmed texts alone: blank lines, blanks at the ends of lines and folds tell
/// nothing.
pub fn marks_tell_the_item()
    ensures uid { (first second : List Line) → mark_texts (marks_from Before first) ≡ mark_texts (marks_from Before second) → uid_among (placed first) ≡ uid_among (placed second) }
    ensures version { (first second : List Line) → mark_texts (marks_from Before first) ≡ mark_texts (marks_from Before second) → fingerprint (placed first) ≡ fingerprint (placed second) }
{}

/// What is written of the lines of a text has the UID and the version of that text, where its lines are UTF-8, have no line feed and begin
/// with no space and no tab, and the first begins with no byte order mark.
pub fn written_lines_tell_the_item()
    ensures uid { (text : List ℕ) → AreLines (mark_texts (item_marks text)) → uid_among (placed (logical_lines (written (item_marks text)))) ≡ uid_among (placed (logical_lines text)) }
    ensures version { (text : List ℕ) → AreLines (mark_texts (item_marks text)) → fingerprint (placed (logical_lines (written (item_marks text)))) ≡ fingerprint (placed (logical_lines text)) }
{}

/// A joined file is split into items of the same idents and versions, where the idents differ: those that are a VCALENDAR in order, and
/// then all others in order.
pub fn joined_files_are_split_again()
    ensures { (items : List ItemValue) (file : List ℕ) → AreItems items → IsDistinct bytes_eq (idents items) → join (map (λ (item : ItemValue). item.text) items) ≡ Ok file → SplitsLike file (in_file_order items) }
{}
