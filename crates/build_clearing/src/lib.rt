// The buffers that a build is lent, set to zero: its output, its scratch, and the part of the scratch that writing a layout works in.
#![tactic(auto)]

ghost use Rattle.std.specs.Prelude.{◌≡◌};
ghost use Rattle.build_meaning.specs.Building.{outputs, scratches, zeros, float_zeros, cleared_output, cleared_scratch};

// Sets all output to zero.
pub fn clear_output(
    postings: &mut [u64],
    block_offsets: &mut [u64],
    summary_components: &mut [u32],
    component_offsets: &mut [u64],
    summary_ids: &mut [u16],
    codes: &mut [u8],
    minimums: &mut [f32],
    steps: &mut [f32],
)
    ensures { outputs postings.new block_offsets.new summary_components.new component_offsets.new summary_ids.new codes.new
        minimums.new steps.new ≡ cleared_output (outputs postings.old block_offsets.old summary_components.old
        component_offsets.old summary_ids.old codes.old minimums.old steps.old) }
{
    clearing::clear(postings);
    clearing::clear(block_offsets);
    clearing::clear(summary_components);
    clearing::clear(component_offsets);
    clearing::clear(summary_ids);
    clearing::clear(codes);
    clearing::clear(minimums);
    clearing::clear(steps);
}

// Sets the work space to zero.
pub fn clear_work(keys: &mut [u64], places: &mut [u64], maxima: &mut [f32], counts: &mut [u64])
    ensures keys { keys.new ≡ zeros keys.old }
    ensures places { places.new ≡ zeros places.old }
    ensures maxima { maxima.new ≡ float_zeros maxima.old }
    ensures counts { counts.new ≡ zeros counts.old }
{
    clearing::clear(keys);
    clearing::clear(places);
    clearing::clear(maxima);
    clearing::clear(counts);
}

// Sets all scratch to zero.
pub fn clear_scratch(
    order: &mut [u64],
    blocks: &mut [u64],
    sorted: &mut [u64],
    known: &mut [u64],
    taken: &mut [u64],
    counts: &mut [u64],
    starts: &mut [u64],
    slots: &mut [u64],
    weights: &mut [f32],
    sums: &mut [f32],
    keys: &mut [u64],
)
    ensures { scratches order.new blocks.new sorted.new known.new taken.new counts.new starts.new slots.new
        weights.new sums.new keys.new ≡ cleared_scratch (scratches order.old blocks.old sorted.old known.old
        taken.old counts.old starts.old slots.old weights.old sums.old keys.old) }
{
    clearing::clear(order);
    clearing::clear(blocks);
    clearing::clear(sorted);
    clearing::clear(known);
    clearing::clear(taken);
    clearing::clear(counts);
    clearing::clear(starts);
    clearing::clear(slots);
    clearing::clear(weights);
    clearing::clear(sums);
    clearing::clear(keys);
}
