ghost use Rattle.std.specs.Prelude.{◌≡◌};
ghost use Rattle.pt_directors.specs.Directors.{of_sdf, of_sr, of_de, of_pn, of_modal, of_rendezvous};

use pt_core::Either;

/// The core of a composite's director: that of SDF, of SR, of DE, of PN, of Modal, or of Rendezvous.
pub type Director = Either<
    pt_sdf::Core,
    Either<
        pt_sr::Core,
        Either<pt_de::DeCore, Either<pt_pn::Core, Either<pt_modal::Core, pt_rv::Core>>>,
    >,
>;

/// The director that is this core of SDF.
pub fn sdf(core: pt_sdf::Core) -> Director
    ensures { result ≡ of_sdf core }
{
    Either::First(core)
}

/// The director that is this core of SR.
pub fn sr(core: pt_sr::Core) -> Director
    ensures { result ≡ of_sr core }
{
    Either::Other(Either::First(core))
}

/// The director that is this core of DE.
pub fn de(core: pt_de::DeCore) -> Director
    ensures { result ≡ of_de core }
{
    Either::Other(Either::Other(Either::First(core)))
}

/// The director that is this core of PN.
pub fn pn(core: pt_pn::Core) -> Director
    ensures { result ≡ of_pn core }
{
    Either::Other(Either::Other(Either::Other(Either::First(core))))
}

/// The director that is this core of Modal.
pub fn modal(core: pt_modal::Core) -> Director
    ensures { result ≡ of_modal core }
{
    Either::Other(Either::Other(Either::Other(Either::Other(Either::First(core)))))
}

/// The director that is this core of Rendezvous.
pub fn rendezvous(core: pt_rv::Core) -> Director
    ensures { result ≡ of_rendezvous core }
{
    Either::Other(Either::Other(Either::Other(Either::Other(Either::Other(core)))))
}
