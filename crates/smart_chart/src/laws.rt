//! Laws of pictures.
ghost use Rattle.std.specs.Prelude.{◌≡◌, ◌++◌, ℕ, List, true, codes};
ghost use Rattle.std.specs.List.{flat_map};
ghost use Rattle.smart_chart.specs.Pictures.{picture_text, shown};
ghost use Rattle.smart_chart.specs.Plain.{are_plain, have_no_tag};
ghost use Rattle.smart_chart.specs.declared.picture.Shape.{Shape};
ghost use Rattle.smart_chart.specs.declared.picture.TheConstants.{HEAD};

/// Whatever lines and shapes it has, a picture begins and ends as SVG does, and each of its bytes prints or ends a line.
/// No text in it opens or closes a tag.
pub fn a_picture_is_plain()
    ensures begins { (height first : ℕ) (lines : List (List ℕ)) (shapes : List Shape) → (rest : List ℕ) × (picture_text height first lines shapes ≡ HEAD.now ++ rest) }
    ensures ends { (height first : ℕ) (lines : List (List ℕ)) (shapes : List Shape) → (front : List ℕ) × (picture_text height first lines shapes ≡ front ++ codes "</svg>\n") }
    ensures plain { (height first : ℕ) (lines : List (List ℕ)) (shapes : List Shape) → are_plain (picture_text height first lines shapes) ≡ true }
    ensures escaped { (text : List ℕ) → have_no_tag (flat_map shown text) ≡ true }
{}
