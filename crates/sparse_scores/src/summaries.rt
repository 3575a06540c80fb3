// The summaries of a list, as they are lent.
ghost use Rattle.std.specs.Prelude.{◌≡◌, ℕ, ◌<◌, T, get_or};
ghost use Rattle.std.specs.Float.{nan, binary32};
ghost use Rattle.std.specs.Float.Ieee.{fits};

// The summaries' components, where each component's entries start, the entries' summaries and codes, and for each summary the least
// value and the step of its codes.
#[derive(Clone, Copy)]
pub struct Summaries<'a> {
    pub summary_components: &'a [u32],
    pub component_offsets: &'a [u64],
    pub summary_ids: &'a [u16],
    pub codes: &'a [u8],
    pub minimums: &'a [f32],
    pub steps: &'a [f32],
    pub ghost codes_narrow: { (k : ℕ) → get_or codes.now k 0 < 256 },
    pub ghost minimums_fit: { (k : ℕ) → T (fits binary32 (get_or minimums.now k nan)) },
    pub ghost steps_fit: { (k : ℕ) → T (fits binary32 (get_or steps.now k nan)) },
}

impl<'a> Summaries<'a> {
    // Summaries in six slices.
    pub fn new(
        summary_components: &'a [u32],
        component_offsets: &'a [u64],
        summary_ids: &'a [u16],
        codes: &'a [u8],
        minimums: &'a [f32],
        steps: &'a [f32],
    ) -> Self
        ensures summary_components { result.summary_components.now ≡ summary_components.now }
        ensures component_offsets { result.component_offsets.now ≡ component_offsets.now }
        ensures summary_ids { result.summary_ids.now ≡ summary_ids.now }
        ensures codes { result.codes.now ≡ codes.now }
        ensures minimums { result.minimums.now ≡ minimums.now }
        ensures steps { result.steps.now ≡ steps.now }
    {
        Self {
            summary_components,
            component_offsets,
            summary_ids,
            codes,
            minimums,
            steps,
        }
    }
}
