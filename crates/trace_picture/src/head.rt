//! The head of a picture: the first tag, the colours, and where the bands begin.
ghost use Rattle.std.specs.Prelude.{◌≡◌, ◌+◌, ◌*◌, ◌≤◌, ◌++◌, length, take, codes};
ghost use Rattle.larch_actions.specs.Layout.{IsLawful};
ghost use Rattle.trace_shapes.specs.Shapes.{each_below};
ghost use Rattle.trace_picture.specs.Picture.{style_text, pattern_text, many_style, many_if, hover_text, over_words, head_text};

use larch_actions::Layout;
use trace_core::add;
use trace_shapes::tags::add_with_number;

// Adds the first tag and the colours.
#[tactic(auto, unfolding(crate::specs::Picture::style_text))]
fn add_style(buf: &mut [u8], at: usize) -> usize
    requires { at + 2600 ≤ length buf.old }
    ensures text { take result buf.new ≡ take at buf.old ++ style_text }
    ensures near { result ≤ at + 2600 }
{
    let at = add(
        buf,
        at,
        b"<svg xmlns='http://www.w3.org/2000/svg' width='1252' font-family='Helvetica,Arial,sans-serif' font-size='11'>\n<title>Firefly Threads timeline</title>\n<style>\n",
    );
    let at = add(
        buf,
        at,
        b"text{fill:#1f2328}.r{fill:#f3f4f6}.p,.z{fill:#fff}.l{stroke:#d8dbe0}.n{fill:#6e7781;font-size:10px;text-anchor:middle}.c{fill:#6e7781;font-size:10px}.y,.i{font-weight:bold}.i{text-anchor:middle;stroke:none}.s1,.x,.hx{font-size:10px}.s2{font-size:9px;text-anchor:end}.s3{font-size:8px;text-anchor:end}.hx{paint-order:stroke;stroke:#fff;stroke-width:3px}\n",
    );
    let at = add(
        buf,
        at,
        b".m0{fill:#e69f00}.m1{fill:#0072b2}.m2{fill:#f0e442}.m3{fill:#009e73}.m4{fill:#cc79a7}.m5{fill:#56b4e9}.m6{fill:#d55e00}.m1+.x{fill:#fff}\n",
    );
    add(
        buf,
        at,
        b".h{fill:url(#h)}.d{fill:#fff3c4}.h,.d{stroke:#8c959f;stroke-width:.6}.o{fill:#fff}.k{fill:#d8dee4}.g{fill:#ffd866}.b{fill:#b6dcf5}.v{fill:#ffb8a3}.j{fill:#bfe3c3}use{stroke:#57606a;stroke-width:.8}\n",
    )
}

// Adds the rest of the colours and the hatch.
#[tactic(auto, unfolding(crate::specs::Picture::pattern_text))]
fn add_pattern(buf: &mut [u8], at: usize) -> usize
    requires { at + 2900 ≤ length buf.old }
    ensures text { take result buf.new ≡ take at buf.old ++ pattern_text }
    ensures near { result ≤ at + 2900 }
{
    let at = add(
        buf,
        at,
        b".u{display:none}.e{fill:#fff;stroke:#57606a;stroke-dasharray:3 2}.f{fill:#cf222e;stroke:#cf222e}.f+.i,.ft,.fe{fill:#fff}.ft,.fe{font-weight:bold;filter:url(#t)}.fe{text-anchor:end}.fl{stroke:#cf222e;stroke-width:2}.u0{fill:#57606a}.u1{fill:#c9ced5}.a{fill:none;stroke:#a02c6b;stroke-width:1.6;marker-end:url(#a)}.q{fill:none;stroke:#fff;stroke-width:4}.hd{font-size:13px}.ok,.no,.at{font-weight:bold}.ok{fill:#1a7f37}.no{fill:#cf222e}.at{fill:#9a6700}\n@media (prefers-color-scheme:dark){text{fill:#e6edf3}.p,.z{fill:#0d1117}.r{fill:#1c2128}.n,.c{fill:#9198a1}.l{stroke:#30363d}.q{stroke:#0d1117}.a{stroke:#ff8fc7}.ar{fill:#ff8fc7}.i,.s1,.s2,.s3,.x{fill:#1f2328}.m1+.x,.f+.i,.ft,.fe{fill:#fff}.hx{fill:#e6edf3;stroke:#0d1117}.hb{fill:#22272e}.d{fill:#5c4f17}.u0{fill:#adb5bd}.u1{fill:#3d444d}.ok{fill:#3fb950}.no{fill:#ff7b72}.at{fill:#e3b341}}\n</style>\n",
    );
    let at = add(
        buf,
        at,
        b"<defs><pattern id='h' width='5' height='5' patternUnits='userSpaceOnUse' patternTransform='rotate(45)'><rect class='hb' width='5' height='5' fill='#fff'/><rect width='2' height='5' fill='#b4bcc5'/></pattern>\n",
    );
    let at = add(
        buf,
        at,
        b"<marker id='a' viewBox='0 0 6 6' refX='5' refY='3' markerWidth='7' markerHeight='7' markerUnits='userSpaceOnUse' orient='auto'><path class='ar' d='M0 0L6 3L0 6z' fill='#a02c6b'/></marker><filter id='t' x='-.05' y='-.15' width='1.1' height='1.3'><feFlood flood-color='#cf222e'/><feComposite in='SourceGraphic'/></filter></defs>\n",
    );
    add(
        buf,
        at,
        b"<rect class='p' width='100%' height='100%'/>\n<g class='s'>\n",
    )
}

// Adds the looks of the mutexes from the eighth on.
#[tactic(auto, unfolding(crate::specs::Picture::many_style))]
fn add_many(buf: &mut [u8], at: usize) -> usize
    requires { at + 2600 ≤ length buf.old }
    ensures text { take result buf.new ≡ take at buf.old ++ many_style }
    ensures near { result ≤ at + 2600 }
{
    add(
        buf,
        at,
        b"<style>\n.m7,.m14,.m21,.m28,.m35,.m42,.m49,.m56,.m63{fill:#f7dca6;stroke:#e69f00;stroke-width:1.5}.m8,.m15,.m22,.m29,.m36,.m43,.m50,.m57{fill:#a6cbe6;stroke:#0072b2;stroke-width:1.5}.m9,.m16,.m23,.m30,.m37,.m44,.m51,.m58{fill:#faf5b8;stroke:#f0e442;stroke-width:1.5}.m10,.m17,.m24,.m31,.m38,.m45,.m52,.m59{fill:#a6dccb;stroke:#009e73;stroke-width:1.5}.m11,.m18,.m25,.m32,.m39,.m46,.m53,.m60{fill:#edcfde;stroke:#cc79a7;stroke-width:1.5}.m12,.m19,.m26,.m33,.m40,.m47,.m54,.m61{fill:#cbe6f8;stroke:#56b4e9;stroke-width:1.5}.m13,.m20,.m27,.m34,.m41,.m48,.m55,.m62{fill:#f3c3a6;stroke:#d55e00;stroke-width:1.5}\n.m14,.m15,.m16,.m17,.m18,.m19,.m20{stroke-dasharray:7 3}.m21,.m22,.m23,.m24,.m25,.m26,.m27{stroke-dasharray:2 2}.m28,.m29,.m30,.m31,.m32,.m33,.m34{stroke-dasharray:12 2}.m35,.m36,.m37,.m38,.m39,.m40,.m41{stroke-dasharray:7 2 2 2}.m42,.m43,.m44,.m45,.m46,.m47,.m48{stroke-dasharray:4 4}.m49,.m50,.m51,.m52,.m53,.m54,.m55{stroke-dasharray:1 3}.m56,.m57,.m58,.m59,.m60,.m61,.m62{stroke-dasharray:12 2 2 2}.m63{stroke-dasharray:3 1}\n</style>\n",
    )
}

// The same, where there are so many.
fn add_many_if(buf: &mut [u8], at: usize, mutexes: u32) -> usize
    requires { at + 2600 ≤ length buf.old }
    ensures text { take result buf.new ≡ take at buf.old ++ many_if mutexes }
    ensures near { result ≤ at + 2600 }
{
    if 7 < mutexes { add_many(buf, at) } else { at }
}

// Adds that over a bar of the mutex the bars of the others fade.
#[tactic(auto, unfolding(crate::specs::Picture::hover_text))]
fn add_hover(buf: &mut [u8], at: usize, mutex: u32) -> usize
    requires { at + 130 ≤ length buf.old }
    ensures text { take result buf.new ≡ take at buf.old ++ hover_text mutex }
    ensures near { result ≤ at + 130 }
{
    let m = u64::from(mutex);
    let at = add_with_number(buf, at, b"<style>.w:has(.m", m);
    let at = add_with_number(buf, at, b":hover) rect[class^=m]:not(.m", m);
    add(buf, at, b"){opacity:.25}</style>\n")
}

// The same of all mutexes.
fn add_hovers(buf: &mut [u8], at: usize, mutexes: u32) -> usize
    requires room { at + 130 * mutexes ≤ length buf.old }
    ensures text { take result buf.new ≡ take at buf.old ++ each_below hover_text mutexes }
    ensures near { result ≤ at + 130 * mutexes }
{
    let mut last = at;
    for m in 0..mutexes {
        last = add_hover(buf, last, m);
    }
    last
}

// Adds the looks of the mutexes.
fn add_looks(buf: &mut [u8], at: usize, layout: &Layout) -> usize
    requires lawful { IsLawful layout.now }
    requires room { at + 11000 ≤ length buf.old }
    ensures text { take result buf.new ≡ take at buf.old ++ (many_if layout.now.mutexes ++ each_below hover_text layout.now.mutexes) }
    ensures near { result ≤ at + 11000 }
{
    let at = add_many_if(buf, at, layout.mutexes);
    add_hovers(buf, at, layout.mutexes)
}

// Adds what may be moved down, and the words of the overview.
#[tactic(auto, unfolding(crate::specs::Picture::over_words))]
fn add_over_words(buf: &mut [u8], at: usize) -> usize
    requires { at + 250 ≤ length buf.old }
    ensures text { take result buf.new ≡ take at buf.old ++ over_words }
    ensures near { result ≤ at + 250 }
{
    add(
        buf,
        at,
        b"<g class='w'>\n<text class='u' x='44' y='-4'>Overview: a column for fifty events, dark for the threads that had one, light for those that only wait, and below them the mutexes that were held; it links to its band</text>\n",
    )
}

/// Adds the head.
#[tactic(auto, unfolding(crate::specs::Picture::head_text))]
pub fn add_head(buf: &mut [u8], at: usize, layout: &Layout) -> usize
    requires lawful { IsLawful layout.now }
    requires room { at + 20000 ≤ length buf.old }
    ensures text { take result buf.new ≡ take at buf.old ++ head_text layout.now }
    ensures near { result ≤ at + 20000 }
{
    let at = add_style(buf, at);
    let at = add_pattern(buf, at);
    let at = add_looks(buf, at, layout);
    add_over_words(buf, at)
}
