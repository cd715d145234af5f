// A list of requests is played, from the opening of a scene to its reckoning.
ghost use Rattle.std.specs.Prelude.{◌≡◌, map};
ghost use Rattle.model.specs.Kalls.{plan, replied, serve};
ghost use Rattle.model.specs.SetUp.{reckoning};
ghost use Rattle.model.specs.Isolation.{Isolates};
ghost use Rattle.scene.specs.Abstract.{world};
ghost use Rattle.run.specs.Play.{ask, view, has_buffer, told, played, afterwards, LiesOn};

use making::makes::{data, erase, univ};
use model::kinds::{Kall, Request};
use model::signals::Fault;
use moving::moves::{delete, interchange, pass, take};
use reading::data::getdata;
use reading::lengths::{clenth, dlenth, lenth};
use reading::load::load;
use rights::rule::RightsRule;
use scene::opened::{Reckoning, Scene, Slip, open, reckon};
use scene::setup::SetUp;
use shelf::traits::WritableShelf;
use storing::stores::{append, passappend, store};
use writing::writes::{addata, putdata};

// Each kind of kall has arguments of its own.
#[inline(always)]
fn perform<R: RightsRule, S: WritableShelf>(
    scene: &mut Scene<R>,
    slip: &Slip,
    shelf: &mut S,
    process: u32,
    kall: &Kall,
    buffer: &mut [S::Element],
) -> Result<i32, Fault>
    ensures { record { answer = result; buffer = buffer.new; after = world scene.new.tables (S.ReadableShelf.holds shelf.new) } ≡ replied process buffer.old (world scene.old.tables (S.ReadableShelf.holds shelf.old)) (plan R.RightsRule.rule process kall.now buffer.old (world scene.old.tables (S.ReadableShelf.holds shelf.old))) }
{
    match kall {
        Kall::Lenth => lenth(scene, slip, shelf, process),
        Kall::Clenth(path) => clenth(scene, slip, shelf, process, path),
        Kall::Dlenth(path) => dlenth(scene, slip, shelf, process, path),
        Kall::Getdata(k) => getdata(scene, slip, shelf, process, &k.path, k.disp, k.knt, buffer),
        Kall::Load(k) => load(scene, slip, shelf, process, k.new, &k.path),
        Kall::Pass(k) => pass(scene, slip, shelf, process, &k.path, k.cur, k.mask),
        Kall::Take(k) => take(scene, slip, shelf, process, k.new, &k.path),
        Kall::Store(k) => store(scene, slip, shelf, process, &k.path, k.cur, k.mask),
        Kall::Append(k) => append(scene, slip, shelf, process, &k.path, k.cur, k.mask),
        Kall::Passappend(k) => passappend(scene, slip, shelf, process, &k.path, k.cur, k.mask),
        Kall::Delete(path) => delete(scene, slip, shelf, process, path),
        Kall::Interchange(k) => interchange(scene, slip, shelf, process, &k.path, k.cur, k.mask),
        Kall::Data { path, knt, mask } => {
            data(scene, slip, shelf, process, path, *knt, *mask, buffer)
        }
        Kall::Univ(path) => univ(scene, slip, shelf, process, path),
        Kall::Putdata(k) => putdata(scene, slip, shelf, process, &k.path, k.disp, k.knt, buffer),
        Kall::Addata { path, knt } => addata(scene, slip, shelf, process, path, *knt, buffer),
        Kall::Erase(path) => erase(scene, slip, shelf, process, path),
    }
}

// One request: its answer and its buffer are written back.
pub fn serve<R: RightsRule, S: WritableShelf>(
    scene: &mut Scene<R>,
    slip: &Slip,
    shelf: &mut S,
    request: &mut Request<S::Element>,
)
    ensures view { view request.new ≡ told (serve R.RightsRule.rule (ask request.old) (world scene.old.tables (S.ReadableShelf.holds shelf.old))) }
    ensures given { has_buffer request.new ≡ has_buffer request.old }
    ensures after { world scene.new.tables (S.ReadableShelf.holds shelf.new) ≡ (serve R.RightsRule.rule (ask request.old) (world scene.old.tables (S.ReadableShelf.holds shelf.old))).world }
{
    let process = request.process;
    let kall = &request.kall;
    // Two calls: a `&mut []` chosen beside a lent buffer gets no proof.
    let answer = match &mut request.buffer {
        Some(buffer) => perform(scene, slip, shelf, process, kall, buffer.as_mut_slice()),
        None => perform(scene, slip, shelf, process, kall, &mut []),
    };
    request.answer = Some(answer);
}

pub fn serve_all<R: RightsRule, S: WritableShelf>(
    scene: &mut Scene<R>,
    slip: &Slip,
    shelf: &mut S,
    requests: &mut [Request<S::Element>],
)
    ensures answers { map view requests.new ≡ played R.RightsRule.rule (world scene.old.tables (S.ReadableShelf.holds shelf.old)) requests.old }
    ensures given { map has_buffer requests.new ≡ map has_buffer requests.old }
    ensures after { world scene.new.tables (S.ReadableShelf.holds shelf.new) ≡ afterwards R.RightsRule.rule (world scene.old.tables (S.ReadableShelf.holds shelf.old)) requests.old }
{
    for request in requests.iter_mut() {
        serve(scene, slip, shelf, request);
    }
}

// The whole of a scene: opened, played, reckoned. Every cast is isolated in it.
pub fn play<R: RightsRule + Drop, S: WritableShelf>(
    set_up: SetUp<R>,
    shelf: &mut S,
    requests: &mut [Request<S::Element>],
) -> Reckoning
    ensures answers { map view requests.new ≡ played R.RightsRule.rule (world set_up.tables (S.ReadableShelf.holds shelf.old)) requests.old }
    ensures given { map has_buffer requests.new ≡ map has_buffer requests.old }
    ensures reckoned { result.living ≡ reckoning (afterwards R.RightsRule.rule (world set_up.tables (S.ReadableShelf.holds shelf.old)) requests.old).frame }
    ensures shelved { LiesOn (S.ReadableShelf.holds shelf.new) (afterwards R.RightsRule.rule (world set_up.tables (S.ReadableShelf.holds shelf.old)) requests.old).elements }
    ensures isolated { Isolates R.RightsRule.rule (world set_up.tables (S.ReadableShelf.holds shelf.old)) (map ask requests.old) }
{
    let (mut scene, slip) = open(set_up);
    serve_all(&mut scene, &slip, shelf, requests);
    reckon(scene, slip)
}
